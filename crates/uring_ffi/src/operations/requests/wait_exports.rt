//! What carrying out an operation needs, whether it has to wait, and what becomes of a try, for C: functions of `c/include/wulgach_tries.h` and `c/include/wulgach_waits.h`.
ghost use Rattle.std.specs.Prelude.{◌≡◌, true, false, MatchOption};
ghost use Rattle.uring_operations.specs.Entries.Needs as needed;
ghost use Rattle.uring_operations.specs.Files.Descriptors as found;
ghost use Rattle.uring_operations.specs.Files.StartFaults as starting;
ghost use Rattle.uring_operations.specs.Requests.Readiness as ready;
ghost use Rattle.uring_operations.specs.Calls.Tries as tried;
ghost use Rattle.uring_operations.specs.Calls.CallTries as called;
ghost use Rattle.uring_operations.specs.Calls.Instances as instances;
ghost use Rattle.uring_ffi.specs.Enter.Rings.RingForm.{form_of_word};
ghost use Rattle.uring_ffi_values.specs.LayerWords.WaitForm.{word_of_finding, word_of_step, end_of_step, task_of, word_of_turn, end_of_turn, doing_of};

use crate::operations::entries::entry_exports::form_by_word;
use crate::written::write_found;
use uring_ffi_values::wait_words::{
    doing, finding_word, step_end, step_word, task, turn_end, turn_word,
};
use uring_operations::{
    Call, Known, Nature, Needs, Patience, PollStart, Submission, Transfer, Trial, asks_instance,
    asks_listening, buffer_fault, counts_as_begun, counts_as_polled, counts_as_ready,
    instance_events, is_call_repeated, is_impatient, is_tried_first, needs_as, needs_of,
    next_finding, next_step, next_turn, no_buffer_fault, poll_result, poll_start, polling_fault,
    present_of, start_fault, waits_after_search,
};

/// Writes what the operation of an entry needs.
#[unsafe(no_mangle)]
pub extern "C" fn wulgach_needs_of(entry: &Submission, needs: &mut Needs)
    ensures { needs.new ≡ needed.needs_of entry.now }
{
    *needs = needs_of(entry);
}

/// Writes what the request of an entry needs that is this to the core.
#[unsafe(no_mangle)]
pub extern "C" fn wulgach_needs_as(entry: &Submission, form: u32, needs: &mut Needs)
    ensures { needs.new ≡ needed.needs_as entry.now (form_of_word form) }
{
    *needs = needs_as(entry, form_by_word(form));
}

/// Returns what is to be asked next of a descriptor, or what the request of an entry is on it.
#[unsafe(no_mangle)]
pub extern "C" fn wulgach_find_kind(entry: &Submission, trial: &Trial, known: &Known) -> u32
    ensures { result ≡ word_of_finding (found.next_of entry.now trial.now known.now) }
{
    finding_word(next_finding(entry, trial, known))
}

/// Whether a descriptor counts as ready of which a poll(2) that doesn't wait came to this, and shows these events.
#[unsafe(no_mangle)]
pub extern "C" fn wulgach_counts_as_ready(came: i32, events: u16) -> bool
    ensures { result ≡ ready.counts_as_ready came events }
{
    counts_as_ready(came, events)
}

/// Whether a request doesn't wait, whatever its descriptor has.
#[unsafe(no_mangle)]
pub extern "C" fn wulgach_is_impatient(entry: &Submission, patience: &Patience) -> bool
    ensures { result ≡ ready.is_impatient entry.now patience.now }
{
    is_impatient(entry, patience)
}

/// Whether the socket of a request is asked as it starts whether it listens, where its descriptor was found ready then, or wasn't.
#[unsafe(no_mangle)]
pub extern "C" fn wulgach_asks_listening(needs: &Needs, is_ready: bool) -> bool
    ensures { result ≡ ready.asks_listening needs.now is_ready }
{
    asks_listening(needs, is_ready)
}

/// Whether what takes a provided buffer waits from now on for its descriptor, whatever its group has, where a look at that found a buffer or none.
#[unsafe(no_mangle)]
pub extern "C" fn wulgach_waits_after_search(entry: &Submission, is_found: bool) -> bool
    ensures { result ≡ ready.waits_after_search entry.now is_found }
{
    waits_after_search(entry, is_found)
}

/// Whether a request that wasn't found ready as it starts is carried out once all the same.
#[unsafe(no_mangle)]
pub extern "C" fn wulgach_is_tried_first(entry: &Submission, least: u32) -> bool
    ensures { result ≡ ready.is_tried_first entry.now least }
{
    is_tried_first(entry, least)
}

/// Returns what is next of a transfer, after what was done last, which came to `res`, and writes what it ends with, if it ends.
#[unsafe(no_mangle)]
pub extern "C" fn wulgach_transfer_next(
    transfer: &Transfer,
    last: u32,
    res: i32,
    end: &mut i32,
) -> u32
    ensures next { result ≡ word_of_step (tried.next_of transfer.now (task_of last) res) }
    ensures end { end.new ≡ end_of_step (tried.next_of transfer.now (task_of last) res) end.old }
{
    let step = next_step(transfer, task(last), res);
    *end = step_end(step, *end);
    step_word(step)
}

/// Returns what is next of an operation of sockets or of a splice, after what was done last, which came to `res`, and writes what it ends with, if that is known.
#[unsafe(no_mangle)]
pub extern "C" fn wulgach_call_next(
    entry: &Submission,
    call: &Call,
    last: u32,
    res: i32,
    end: &mut i32,
) -> u32
    ensures next { result ≡ word_of_turn (called.next_of entry.now call.now (doing_of last) res) }
    ensures end { end.new ≡ end_of_turn (called.next_of entry.now call.now (doing_of last) res) end.old }
{
    let turn = next_turn(entry, call, doing(last), res);
    *end = turn_end(turn, *end);
    turn_word(turn)
}

/// Whether an operation counts as begun that has moved so many bytes.
#[unsafe(no_mangle)]
pub extern "C" fn wulgach_counts_as_begun(done: u64) -> bool
    ensures { result ≡ called.counts_as_begun done }
{
    counts_as_begun(done)
}

/// Whether the call of an operation counts as made once more, where it did before or didn't, this was done last, and that is next.
#[unsafe(no_mangle)]
pub extern "C" fn wulgach_is_call_repeated(was_repeated: bool, last: u32, next: u32) -> bool
    ensures { result ≡ called.is_call_repeated was_repeated (doing_of last) (doing_of next) }
{
    is_call_repeated(was_repeated, doing(last), doing(next))
}

/// Which events a poll finds there, where poll(2) or epoll_wait(2) came to this and shows these.
#[unsafe(no_mangle)]
pub extern "C" fn wulgach_present_of(came: i32, events: u16) -> u16
    ensures { result ≡ instances.present_of came events }
{
    present_of(came, events)
}

/// Writes what a poll ends with, where these of its events are present, 0 for none. False, and nothing is written: it waits.
#[unsafe(no_mangle)]
pub extern "C" fn wulgach_poll_result(
    events: u16,
    present: u16,
    was_told: bool,
    res: &mut i32,
) -> bool
    ensures { MatchOption (called.poll_result events present was_told) ((result ≡ false) × (res.new ≡ res.old))
        (λ ends. (result ≡ true) × (res.new ≡ ends)) }
{
    write_found(poll_result(events, present, was_told), res)
}

/// Whether an epoll instance is asked for the poll of an entry.
#[unsafe(no_mangle)]
pub extern "C" fn wulgach_asks_instance(entry: &Submission) -> bool
    ensures { result ≡ called.asks_instance entry.now }
{
    asks_instance(entry)
}

/// For what an instance is asked that is to tell of these events of a poll.
#[unsafe(no_mangle)]
pub extern "C" fn wulgach_instance_events(events: u16) -> u32
    ensures { result ≡ instances.instance_events events }
{
    instance_events(events)
}

/// Writes how a poll for these events starts, which can have more than one completion or can't, where asking an instance came to this.
#[unsafe(no_mangle)]
pub extern "C" fn wulgach_poll_starts(events: u16, goes_on: bool, res: i32, start: &mut PollStart)
    ensures { start.new ≡ instances.poll_start events goes_on res }
{
    *start = poll_start(events, goes_on, res);
}

/// With what a read that goes on fails as it starts, where asking an instance for its descriptor came to this; or 0.
#[unsafe(no_mangle)]
pub extern "C" fn wulgach_polling_fault(res: i32) -> i32
    ensures { result ≡ instances.polling_fault res }
{
    polling_fault(res)
}

/// Whether a regular file counts as one that can be polled, where asking an instance for it came to this.
#[unsafe(no_mangle)]
pub extern "C" fn wulgach_counts_as_polled(res: i32) -> bool
    ensures { result ≡ instances.counts_as_polled res }
{
    counts_as_polled(res)
}

/// With what the request of an entry ends whose buffer has this fault, where its descriptor is this.
#[unsafe(no_mangle)]
pub extern "C" fn wulgach_buffer_fault(entry: &Submission, nature: &Nature, why: i32) -> i32
    ensures { result ≡ starting.buffer_fault entry.now nature.now why }
{
    buffer_fault(entry, nature, why)
}

/// With what the request of an entry ends that finds no buffer, provided or registered, where its descriptor is this.
#[unsafe(no_mangle)]
pub extern "C" fn wulgach_no_buffer_fault(entry: &Submission, nature: &Nature) -> i32
    ensures { result ≡ starting.no_buffer_fault entry.now nature.now }
{
    no_buffer_fault(entry, nature)
}

/// With what the operation of an entry, of so many bytes, fails as it starts, where its descriptor is this, and is open for it, or is of the wrong kind; or 0.
#[unsafe(no_mangle)]
pub extern "C" fn wulgach_start_fault(
    entry: &Submission,
    is_wrong: bool,
    length: u64,
    nature: &Nature,
) -> i32
    ensures { result ≡ starting.start_fault entry.now is_wrong length nature.now }
{
    start_fault(entry, is_wrong, length, nature)
}
