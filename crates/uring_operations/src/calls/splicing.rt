//! Which splices and tees aren't to wait that would have to, and what one comes to whose offset is refused. splice(2), SPLICE_F_NONBLOCK.

ghost use Rattle.std.specs.Prelude.{◌≡◌};
ghost use Rattle.uring_operations.specs.Calls.Splices as spec;

use crate::entries::submission::Submission;
use crate::files::descriptor::Directions;

/// The ends of a splice or a tee that would have to wait for one of them.
#[repr(C)]
#[derive(Clone, Copy, Drop)]
pub struct SpliceEnds {
    /// The domain of the socket for which it waits, 0 if that is none.
    pub domain: u32,

    /// And its type.
    pub kind: u32,

    /// It waits for what it reads from, else for what it writes to.
    pub waits_to_read: bool,

    /// What it waits for is a pipe.
    pub is_pipe: bool,

    /// The other end is one.
    pub other_is_pipe: bool,

    /// What it waits for isn't to wait. O_NONBLOCK.
    pub is_unwilling: bool,

    /// The other end isn't.
    pub other_is_unwilling: bool,
}

/// Whether a splice or a tee that would have to wait isn't to, and ends with -11.
pub fn isnt_to_wait(entry: &Submission, ends: &SpliceEnds) -> bool
    ensures { result ≡ spec.isnt_to_wait entry.now ends.now }
{
    ends.is_unwilling || heeds_flag(ends) && has_flag(entry, ends)
}

/// Whether SPLICE_F_NONBLOCK counts.
fn heeds_flag(ends: &SpliceEnds) -> bool
    ensures { result ≡ spec.heeds_flag ends.now }
{
    let is_local_stream = ends.domain == 1 && ends.kind == 1;
    ends.is_pipe || ends.waits_to_read && is_local_stream
}

/// Whether it is set, or as good as that.
fn has_flag(entry: &Submission, ends: &SpliceEnds) -> bool
    ensures { result ≡ spec.has_flag entry.now ends.now }
{
    entry.op_flags & 2 != 0 || ends.other_is_pipe && ends.other_is_unwilling
}

/// Whether it matters to a splice whose call came to this for which directions its descriptors are open.
pub fn splice_asks_directions(came_to: i32) -> bool
    ensures { result ≡ spec.splice_asks_directions came_to }
{
    came_to == -29
}

/// What a splice comes to whose call came to this, and which reads from and writes to what is open for these directions.
pub fn splice_result(came_to: i32, from: &Directions, to: &Directions) -> i32
    ensures { result ≡ spec.splice_result came_to from.now to.now }
{
    let is_open = from.can_read && to.can_write;
    if splice_asks_directions(came_to) && !is_open {
        -9
    } else {
        came_to
    }
}
