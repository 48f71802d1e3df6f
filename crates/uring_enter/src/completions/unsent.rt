//! What a send without copies shows that its chain cancels before it is carried out. io_uring_enter(2), IORING_OP_SEND_ZC.

ghost use Rattle.std.specs.Prelude.{◌≡◌};
ghost use Rattle.uring_enter.specs.Completions.Unsent.{notifies_unsent, part_unsent};

use crate::completions::shot::Part;

/// Whether a request, which is a send without copies or isn't, and ends with this result before it is carried out, has a notice after that.
pub fn notifies_unsent(is_zero_copy: bool, res: i32) -> bool
    ensures { result ≡ notifies_unsent is_zero_copy res }
{
    is_zero_copy && res == -125
}

/// What the completion of its end tells, where it is after a link or begins its chain.
pub fn part_unsent(is_linked: bool) -> Part
    ensures { result ≡ part_unsent is_linked }
{
    if is_linked { Part::Own } else { Part::Sent }
}
