//! What a ring's descriptor polls for, for C: functions of `c/include/wulgach_shown.h`.
ghost use Rattle.std.specs.Prelude.{◌≡◌, false, true, List, [], ◌∷◌};
ghost use Rattle.uring_enter.specs.Waiting.Watching.{Waiting, Waits, KeepsWatched, StandsAs, change_of};
ghost use Rattle.uring_enter.specs.Waiting.Watching as spec;
ghost use Rattle.uring_ffi.specs.Enter.Rings.MessageForm.{enlisted_of, word_of_besides, word_of_enlisted, word_of_watch, watched_of};

use crate::enter::going_on::duty_exports::bit;
use uring_enter::{Enlisted, Watched, adds_after, enlisted_as, polls_besides, watch_of};

/// Begins a descriptor for which nobody waits.
#[unsafe(no_mangle)]
pub extern "C" fn wulgach_watched_begin(watched: &mut Watched)
    ensures waiting { KeepsWatched [] watched.new }
    ensures stands { StandsAs false false watched.new }
{
    *watched = Watched::begin();
}

/// A request waits for these events too, and began to at this count.
#[unsafe(no_mangle)]
pub extern "C" fn wulgach_watched_add(watched: &mut Watched, events: u32, begun: u64)
    ensures waiting { (waiting : List Waiting) → KeepsWatched waiting watched.old
        → KeepsWatched (Waits events begun ∷ waiting) watched.new }
    ensures stands { StandsAs watched.old.is_untold watched.old.is_given_back watched.new }
{
    watched.add(events, begun);
}

/// It was added to what is polled for, which came to this.
#[unsafe(no_mangle)]
pub extern "C" fn wulgach_watched_enlist(watched: &mut Watched, res: i32)
    ensures waiting { (waiting : List Waiting) → KeepsWatched waiting watched.old
        → KeepsWatched waiting watched.new }
    ensures stands { StandsAs (spec.is_untold_after res) watched.old.is_given_back watched.new }
{
    watched.enlist(res);
}

/// It is polled for no more, since its number may be given back.
#[unsafe(no_mangle)]
pub extern "C" fn wulgach_watched_give_back(watched: &mut Watched)
    ensures waiting { (waiting : List Waiting) → KeepsWatched waiting watched.old
        → KeepsWatched waiting watched.new }
    ensures stands { StandsAs watched.old.is_untold true watched.new }
{
    watched.give_back();
}

/// Returns what is changed of a descriptor that was polled for so, or wasn't, and is to be so, or isn't.
#[unsafe(no_mangle)]
pub extern "C" fn wulgach_watch_of(
    before: &Watched,
    was_watched: bool,
    after: &Watched,
    is_watched: bool,
) -> u32
    ensures { result ≡ word_of_watch (change_of (watched_of before.now was_watched)
        (watched_of after.now is_watched)) }
{
    let before = if was_watched { Some(*before) } else { None };
    let after = if is_watched { Some(*after) } else { None };
    watch_of(before, after) as u32
}

/// Whether a descriptor is added whose renewal came to this.
#[unsafe(no_mangle)]
pub extern "C" fn wulgach_watch_adds_after(res: i32) -> bool
    ensures { result ≡ spec.adds_after res }
{
    adds_after(res)
}

/// Returns what an epoll instance makes of descriptors of which it made this so far, and of one more, whose addition came to this.
#[unsafe(no_mangle)]
pub extern "C" fn wulgach_enlisted_with(all: u32, res: i32) -> u32
    ensures { result ≡ word_of_enlisted (spec.both (enlisted_of all) (spec.enlisted_as res)) }
{
    enlisted(all).with(enlisted_as(res)) as u32
}

/// What an instance makes of several descriptors, by its word in C.
pub fn enlisted(word: u32) -> Enlisted
    ensures { result ≡ enlisted_of word }
{
    match word {
        0 => Enlisted::Tells,
        1 => Enlisted::IsReady,
        _ => Enlisted::CantTell,
    }
}

/// Returns what a ring's descriptor polls for beside what its requests wait for, where so many pipes are watched, and the ring has an epoll instance for those that are dormant, or none.
#[unsafe(no_mangle)]
pub extern "C" fn wulgach_polls_besides(watched: u64, has_instance: bool) -> u32
    ensures { result ≡ word_of_besides (spec.polls_besides watched has_instance) }
{
    let besides = polls_besides(watched, has_instance);
    bit(1, besides.writes) | bit(2, besides.instance)
}
