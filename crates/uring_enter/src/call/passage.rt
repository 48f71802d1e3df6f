//! In which order a call is refused before it is carried out, and which calls count. io_uring_enter(2), io_uring_register(2), ERRORS.

ghost use Rattle.std.specs.Prelude.{◌≡◌};
ghost use Rattle.uring_enter.specs.Call.Passages as spec;
ghost use Rattle.uring_enter.specs.Call.Passages.{RefusedDoesNothing, MadeBetweenDuties};

use crate::call::reaching::{Naming, naming_of};

/// What is looked at of a call, or done, before it is carried out.
#[derive(Clone, Copy, Drop)]
pub enum Check {
    /// The number under which the thread has registered the ring.
    Number,

    /// The descriptor: whether it is a ring's.
    Descriptor,

    /// It is counted among the calls on its ring.
    Counts,

    /// Who calls: whether the ring is enabled, and the thread may.
    Caller,

    /// The argument and its count.
    Argument,
}

/// How a call goes on.
#[derive(Clone, Copy, Drop)]
pub enum Passage {
    Checks(Check),

    /// It is refused with this.
    IsRefused(i32),

    /// It is carried out.
    Passes,
}

/// What is done of a call besides its checks, in the order in which it stands here.
#[derive(Clone, Copy, Drop)]
pub struct CallSteps {
    /// Its last argument is taken for a structure of a mask and a time, and no mask alone.
    pub has_structure: bool,

    /// What any call does as it begins.
    pub begins: bool,

    /// It is carried out.
    pub is_made: bool,

    /// What any call does as it returns.
    pub returns: bool,
}

/// What is done of a call besides its checks, where this comes next, and its last argument is a structure or isn't.
pub fn call_steps(next: Passage, is_extended: bool) -> CallSteps
    ensures { result ≡ spec.call_steps next is_extended }
{
    let passes = matches!(next, Passage::Passes);
    CallSteps {
        has_structure: passes && is_extended,
        begins: passes,
        is_made: passes,
        returns: passes,
    }
}

/// What comes next of a call of io_uring_enter(2) with these flags, after a check that came to `res`. `None`: at first.
pub fn next_of_entering(flags: u32, last: Option<Check>, res: i32) -> Passage
    ensures { result ≡ spec.next_of_entering flags last res }
{
    if res < 0 {
        return Passage::IsRefused(res);
    }
    match last {
        None => first_of_entering(flags),
        Some(Check::Number) => Passage::Checks(Check::Descriptor),
        Some(Check::Descriptor) => Passage::Checks(Check::Counts),
        Some(Check::Counts) => Passage::Checks(Check::Caller),
        Some(Check::Caller) | Some(Check::Argument) => Passage::Passes,
    }
}

fn first_of_entering(flags: u32) -> Passage
    ensures { result ≡ spec.first_of_entering flags }
{
    match naming_of(flags) {
        Naming::Refused(fault) => Passage::IsRefused(fault),
        Naming::ByNumber => Passage::Checks(Check::Number),
        Naming::ByDescriptor => Passage::Checks(Check::Descriptor),
    }
}

/// What comes next of a call of io_uring_register(2), after a check that came to `res`, where its descriptor was found a ring's or not. `None`: at first.
pub fn next_of_registering(has_ring: bool, last: Option<Check>, res: i32) -> Passage
    ensures { result ≡ spec.next_of_registering has_ring last res }
{
    if res < 0 {
        return Passage::IsRefused(res);
    }
    match last {
        None | Some(Check::Number) => Passage::Checks(Check::Descriptor),
        Some(Check::Descriptor) => {
            if has_ring {
                Passage::Checks(Check::Counts)
            } else {
                Passage::Checks(Check::Caller)
            }
        }
        Some(Check::Counts) => Passage::Checks(Check::Caller),
        Some(Check::Caller) => Passage::Checks(Check::Argument),
        Some(Check::Argument) => Passage::Passes,
    }
}

/// What holds of every call, whatever its checks come to.
///
/// - `refused_does_nothing`: a call that is refused does nothing besides.
/// - `made_between_duties`: one that passes is carried out between what any call does as it begins and as it returns.
pub fn passage_laws()
    ensures refused_does_nothing { RefusedDoesNothing }
    ensures made_between_duties { MadeBetweenDuties }
{}
