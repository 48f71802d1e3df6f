//! Whose ring a descriptor names, when it is looked whether rings are closed, and what a call does before it sleeps.

ghost use Rattle.std.specs.Prelude.{◌≡◌};
ghost use Rattle.uring_enter.specs.Rings.Closing as spec;
ghost use Rattle.uring_enter.specs.Rings.Closing.{ElapsedMattersWhereAsked, SleepsAfterAll, StaysWhileOpen};

use crate::waiting::sleeping::{Beginning, beginning_of};

/// What is done before a call sleeps.
#[derive(Clone, Copy, Drop)]
pub enum BeforeSleep {
    /// Rings that were closed let go what they have.
    LetsOthersGo,

    /// Its mask is read.
    ReadsMask,

    /// What is due before a sleep is done.
    DoesDuties,
}

/// How a call goes on that is to sleep.
#[derive(Clone, Copy, Drop)]
pub enum SleepOnto {
    Does(BeforeSleep),

    /// Its sleep begins, or doesn't.
    Begins(Beginning),
}

/// Of all rings it is looked whether they are closed.
const ALL_RINGS: u32 = 0x7fff_ffff;

/// Of so many in their turn.
const A_FEW: u32 = 8;

/// Whether a descriptor of this process may name a ring that was made by that one.
pub fn may_name(maker: u32, process: u32) -> bool
    ensures { result ≡ spec.may_name maker process }
{
    maker == process
}

/// Whether nobody can reach a ring any more, by what is known of it, if anything: whether a descriptor is open on it in the table of the thread that looks, which `is_listed` says; whether it was made in that table; and whether one is in a table that another thread has of its own.
pub fn is_gone(
    is_listed: Option<bool>,
    is_of_table: Option<bool>,
    is_elsewhere: Option<bool>,
) -> bool
    ensures { result ≡ spec.is_gone is_listed is_of_table is_elsewhere }
{
    matches!(
        (is_listed, is_of_table, is_elsewhere),
        (Some(false), Some(true), Some(false))
    )
}

/// Whether a ring was made in the table of descriptors of the thread that looks: the thread in whose table it was made shares this one; or that had none of its own, and nobody is seen to have one.
pub fn was_made_here(shares: bool, was_apart: bool, sees_apart: bool) -> bool
    ensures { result ≡ spec.was_made_here shares was_apart sees_apart }
{
    shares || !(was_apart || sees_apart)
}

/// Of how many rings it is looked whether they are closed before a call sleeps.
pub fn looked_at_before_sleep() -> u32
    ensures { result ≡ spec.looked_at_before_sleep }
{
    A_FEW
}

/// Of how many rings it is looked whether they are closed as a call ends: 2^31 - 1 is all. So many nanoseconds ago it was looked last.
pub fn looked_at_after(may_be_left: bool, rings: u32, elapsed: u64) -> u32
    ensures { result ≡ spec.looked_at_after may_be_left rings elapsed }
{
    if may_be_left {
        ALL_RINGS
    } else if rings >= 2 && elapsed >= 10_000_000 {
        A_FEW
    } else {
        0
    }
}

/// Whether it matters to that how long ago it was.
pub fn asks_elapsed(may_be_left: bool, rings: u32) -> bool
    ensures { result ≡ spec.asks_elapsed may_be_left rings }
{
    !may_be_left && rings >= 2
}

/// Whether the lock of all rings is tried once more after a close in a signal's handler, which was tried so often: who has it may wait for what the handler's own thread has.
pub fn tries_again(tries: u32) -> bool
    ensures { result ≡ spec.tries_again tries }
{
    tries < 100
}

/// What comes next of a call that is to sleep, after this, which has brought what may let something go on, or hasn't. `None`: at first. `fault`: that of its arguments, once its mask was read.
pub fn next_before_sleep(last: Option<BeforeSleep>, has_brought: bool, fault: i32) -> SleepOnto
    ensures { result ≡ spec.next_before_sleep last has_brought fault }
{
    match last {
        None => SleepOnto::Does(BeforeSleep::LetsOthersGo),
        Some(BeforeSleep::LetsOthersGo) => {
            if has_brought {
                SleepOnto::Begins(Beginning::Wakes)
            } else {
                SleepOnto::Does(BeforeSleep::ReadsMask)
            }
        }
        Some(BeforeSleep::ReadsMask) => SleepOnto::Does(BeforeSleep::DoesDuties),
        Some(BeforeSleep::DoesDuties) => SleepOnto::Begins(beginning_of(fault, has_brought)),
    }
}

/// What holds of every ring that is closed.
///
/// - `stays_while_open`: a ring that a descriptor is open on in any table is never gone, whatever else is known.
/// - `elapsed_matters_where_asked`: where it isn't asked how long ago it was, as many are looked at whatever that is.
/// - `sleeps_after_all`: no call sleeps before all of that was done.
pub fn closing_laws()
    ensures stays_while_open { StaysWhileOpen }
    ensures elapsed_matters_where_asked { ElapsedMattersWhereAsked }
    ensures sleeps_after_all { SleepsAfterAll }
{}
