//! The course of a request for C, what is shown of its end, and its chain: the functions of `c/include/wulgach_course.h`.
ghost use Rattle.std.specs.Prelude.{◌≡◌, ◌+◌, ◌<◌, ◌-◌, ◌^◌, ℕ, length, List, [], ◌∷◌, Some, true, false, MatchOption, if◌then◌else◌};
ghost use Rattle.uring_operations.specs.declared.requests.act.Fact.{Fact};
ghost use Rattle.uring_operations.specs.declared.requests.act.Fact.TheVariants.{Started, Done};
ghost use Rattle.uring_operations.specs.declared.requests.act.Fact.TheVariants.{Ended as HasEnded};
ghost use Rattle.uring_operations.specs.declared.chains.member.Entry.{Entry};
ghost use Rattle.uring_operations.specs.Requests.Courses.{KeepsCourse, act, after_act, fits};
ghost use Rattle.uring_operations.specs.Requests.Courses.{shown as shown_by};
ghost use Rattle.uring_operations.specs.Requests.Courses.{notice_of as noticed};
ghost use Rattle.uring_operations.specs.Requests.Outcomes.{is_success, shown_of, sought_after, success_of_entry};
ghost use Rattle.uring_enter.specs.Completions.Shots as shots;
ghost use Rattle.uring_operations.specs.Chains.Chains.{member_of, limits};
ghost use Rattle.uring_enter.specs.Completions.Showing.{Change, KeepsShown};
ghost use Rattle.uring_enter.specs.Completions.Showing.{Posted as WasPosted};
ghost use Rattle.uring_enter.specs.Completions.Unsent as unsent;
ghost use Rattle.uring_enter.specs.Completions.Postings.{Posting, Ended, KeepsPosted, is_taken, with_res, posts};
ghost use Rattle.uring_ffi_values.specs.LayerWords.CourseForm.{fact_of, word_of_act, res_of_act, last_of, word_of_end, is_refused, part_of};
ghost use Rattle.uring_ffi.specs.Enter.Completions.ShownForm.{word_of_part, word_of_sought};

use crate::written::write_found;
use uring_enter::{
    Posted, Shown, completion_flags, end_of_send, notifies_unsent, part_unsent, untold_after,
};
use uring_ffi_values::completion_words::CompletionWords;
use uring_ffi_values::course_words::{act_res, act_word, fact, last, part};
use uring_operations::{
    Carried, Course, EndedCancel, EndedEarly, Entry, Fact, Member, Submission, has_succeeded,
    notice_of, shown_of, sought_after,
};

/// A request that was accepted just now.
#[unsafe(no_mangle)]
pub extern "C" fn wulgach_course_begin(course: &mut Course)
    ensures { KeepsCourse [] course.new }
{
    *course = Course::begin();
}

/// Returns what is to be done when the request goes on, and writes its result, if it is to end. If its operation is to be carried out, it then counts as tried.
#[unsafe(no_mangle)]
pub extern "C" fn wulgach_course_act(course: &mut Course, res: &mut i32) -> u32
    ensures act { (log : List Fact) → KeepsCourse log course.old → result ≡ word_of_act (act log) }
    ensures res { (log : List Fact) → KeepsCourse log course.old
        → res.new ≡ res_of_act (act log) res.old }
    ensures after { (log : List Fact) → KeepsCourse log course.old
        → KeepsCourse (after_act log) course.new }
{
    let act = course.act();
    *res = act_res(act, *res);
    act_word(act)
}

/// Notes what has happened to the request. False: it can't have, so far, or there is no such kind. Then nothing changes.
#[unsafe(no_mangle)]
pub extern "C" fn wulgach_course_note(course: &mut Course, kind: u32, res: i32) -> bool
    ensures fits { (log : List Fact) (f : Fact) → KeepsCourse log course.old
        → fact_of kind res ≡ Some f → result ≡ fits log f }
    ensures after { (log : List Fact) (f : Fact) → KeepsCourse log course.old
        → fact_of kind res ≡ Some f → result ≡ true → KeepsCourse (f ∷ log) course.new }
    ensures none { fact_of kind res ≡ None → result ≡ false }
    ensures kept { result ≡ false → course.new ≡ course.old }
{
    match fact(kind, res) {
        Some(fact) => course.note(fact),
        None => false,
    }
}

/// Notes that the core let the request start. False: it has started or ended before. Then nothing changes.
#[unsafe(no_mangle)]
pub extern "C" fn wulgach_course_start(course: &mut Course) -> bool
    ensures fits { (log : List Fact) → KeepsCourse log course.old → result ≡ fits log Started }
    ensures after { (log : List Fact) → KeepsCourse log course.old → result ≡ true
        → KeepsCourse (Started ∷ log) course.new }
    ensures kept { result ≡ false → course.new ≡ course.old }
{
    course.note(Fact::Started)
}

/// Notes that the operation of the request is done, with this result. False: it isn't tried. Then nothing changes.
#[unsafe(no_mangle)]
pub extern "C" fn wulgach_course_done(course: &mut Course, res: i32) -> bool
    ensures fits { (log : List Fact) → KeepsCourse log course.old → result ≡ fits log (Done res) }
    ensures after { (log : List Fact) → KeepsCourse log course.old → result ≡ true
        → KeepsCourse (Done res ∷ log) course.new }
    ensures kept { result ≡ false → course.new ≡ course.old }
{
    course.note(Fact::Done(res))
}

/// Notes that the request has ended with its result. False: it isn't to end. Then nothing changes.
#[unsafe(no_mangle)]
pub extern "C" fn wulgach_course_end(course: &mut Course) -> bool
    ensures fits { (log : List Fact) → KeepsCourse log course.old → result ≡ fits log HasEnded }
    ensures after { (log : List Fact) → KeepsCourse log course.old → result ≡ true
        → KeepsCourse (HasEnded ∷ log) course.new }
    ensures kept { result ≡ false → course.new ≡ course.old }
{
    course.note(Fact::Ended)
}

/// A request has ended: writes the row of its completion, if the core has posted it, and says whether it did. -22 exactly if the request hasn't ended, the core's completion isn't its, or there is no row; then nothing changes.
#[unsafe(no_mangle)]
pub extern "C" fn wulgach_shown_end(
    shown: &mut Shown,
    rows: &mut [Posted],
    course: &Course,
    end: &Posted,
    core: &CompletionWords,
    has_core: bool,
) -> i32
    ensures ends { (facts : List Fact) → KeepsCourse facts course.now
        → result ≡ word_of_end (is_taken (shown_by facts) end.now (last_of core.now has_core) shown.old.posted (length rows.old)) (posts (last_of core.now has_core)) }
    ensures rows { (facts : List Fact) (log : List Posting) → KeepsCourse facts course.now
        → KeepsPosted log shown.old.posted rows.old → is_refused result ≡ false
        → KeepsPosted (Ended (with_res (shown_by facts) end.now) (last_of core.now has_core) ∷ log) shown.new.posted rows.new }
    ensures shown { (log : List Change) → KeepsShown log shown.old → shown.old.posted < 2 ^ 64 - 1
        → is_refused result ≡ false
        → KeepsShown (if posts (last_of core.now has_core) then WasPosted ∷ log else log) shown.new }
    ensures kept { is_refused result ≡ true → (shown.new ≡ shown.old) × (rows.new ≡ rows.old) }
{
    match shown.end(rows, course, *end, last(core, has_core)) {
        Ok(true) => 1,
        Ok(false) => 0,
        Err(_) => -22,
    }
}

/// Writes what the second completion of a send without copies shows, which is of this entry. False, and nothing is written: it has none.
#[unsafe(no_mangle)]
pub extern "C" fn wulgach_notice_of(entry: &Submission, may_post: bool, res: &mut i32) -> bool
    ensures { MatchOption (noticed entry.now may_post) ((result ≡ false) × (res.new ≡ res.old))
        (λ shows. (result ≡ true) × (res.new ≡ shows)) }
{
    write_found(notice_of(entry, may_post), res)
}

/// Whether a result is a success to the links after the request of an entry that was carried out so, and to who posts, by Linux's rules or the manual pages'.
#[unsafe(no_mangle)]
pub extern "C" fn wulgach_has_succeeded(
    entry: &Submission,
    carried: &Carried,
    linux: bool,
    res: i32,
) -> bool
    ensures { result ≡ is_success (success_of_entry entry.now carried.now linux) res }
{
    has_succeeded(entry, carried, linux, res)
}

/// The flags of a completion, where those of a provided buffer that was taken, and of which no other completion has told, are `of_buffer`, or 0.
#[unsafe(no_mangle)]
pub extern "C" fn wulgach_completion_flags(of: u32, of_buffer: u32) -> u32
    ensures { result ≡ shots.completion_flags (part_of of) of_buffer }
{
    completion_flags(part(of), of_buffer)
}

/// The flags of a provided buffer of which no completion has told, after one of this part, where they were `of_buffer`, or 0.
#[unsafe(no_mangle)]
pub extern "C" fn wulgach_untold_after(of: u32, of_buffer: u32) -> u32
    ensures { result ≡ shots.untold_after (part_of of) of_buffer }
{
    untold_after(part(of), of_buffer)
}

/// Returns what the end of a send without copies tells of that has two completions, where the other was posted before or is put off.
#[unsafe(no_mangle)]
pub extern "C" fn wulgach_end_of_send(is_posted: bool) -> u32
    ensures { result ≡ word_of_part (shots.end_of_send is_posted) }
{
    end_of_send(is_posted) as u32
}

/// Whether a request, which is a send without copies or isn't, and ends with this result before it is carried out, has a notice after that.
#[unsafe(no_mangle)]
pub extern "C" fn wulgach_notifies_unsent(is_zero_copy: bool, res: i32) -> bool
    ensures { result ≡ unsent.notifies_unsent is_zero_copy res }
{
    notifies_unsent(is_zero_copy, res)
}

/// Returns what the completion of its end tells, where it is after a link or begins its chain.
#[unsafe(no_mangle)]
pub extern "C" fn wulgach_part_unsent(is_linked: bool) -> u32
    ensures { result ≡ word_of_part (unsent.part_unsent is_linked) }
{
    part_unsent(is_linked) as u32
}

/// What a cancel looks for next that the core has ended, and which ends with this.
#[unsafe(no_mangle)]
pub extern "C" fn wulgach_next_sought(cancel: &EndedCancel, res: i32) -> u32
    ensures { result ≡ word_of_sought (sought_after cancel.now res) }
{
    sought_after(*cancel, res) as u32
}

/// What is shown of a request that the core has ended with this result.
#[unsafe(no_mangle)]
pub extern "C" fn wulgach_shown_of(request: &EndedEarly, res: i32) -> i32
    ensures { result ≡ shown_of request.now res }
{
    shown_of(*request, res)
}

/// Writes the request of a call's first entry, which has this number.
#[unsafe(no_mangle)]
pub extern "C" fn wulgach_member_first(member: &mut Member, number: u64, entry: &Entry)
    ensures { member.new ≡ member_of number entry.now [] }
{
    *member = Member::first(number, *entry);
}

/// Writes the request of the entry after that of `before` in its call, which has this number.
#[unsafe(no_mangle)]
pub extern "C" fn wulgach_member_next(
    member: &mut Member,
    before: &Member,
    number: u64,
    entry: &Entry,
)
    ensures { (first : ℕ) (last : Entry) (earlier : List Entry)
        → before.now ≡ member_of first last earlier → number ≡ first + length (last ∷ earlier)
        → member.new ≡ member_of first entry.now (last ∷ earlier) }
{
    *member = before.next(number, *entry);
}

/// Whether a request is a linked timeout that limits the request `before`.
#[unsafe(no_mangle)]
pub extern "C" fn wulgach_member_limits(timeout: &Member, before: &Member) -> bool
    ensures { result ≡ limits timeout.now before.now }
{
    timeout.limits(before)
}
