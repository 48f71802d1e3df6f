//! The faults of an entry that provides buffers. io_uring_enter(2), IORING_OP_PROVIDE_BUFFERS.

ghost use Rattle.std.specs.Prelude.{◌≡◌, ◌<◌};
ghost use Rattle.uring_operations.specs.Entries.Provisions as spec;

use crate::entries::buffer::NO_ADDRESS;
use crate::entries::submission::Submission;

/// How many buffers a number says, or 0.
pub(crate) fn count_of(fd: i32) -> u32
    ensures { result ≡ spec.count_of fd }
{
    if fd < 0 { 0 } else { fd as u32 }
}

/// Whether it is a count of buffers that there can be, from 1 to 65,536.
pub(crate) fn has_count(fd: i32) -> bool
    ensures { result ≡ spec.has_count fd }
{
    let count = count_of(fd);
    0 < count && count <= 65536
}

/// The fault of an entry that provides buffers, but for those of fields that it may not have, or 0.
pub(crate) fn provision_fault(entry: &Submission) -> i32
    ensures { result ≡ spec.provision_fault entry.now }
{
    if !has_count(entry.fd) {
        return -7;
    }
    if entry.len == 0 {
        return -22;
    }
    let count = count_of(entry.fd) as u64;
    match entry.addr.checked_add(count * entry.len as u64) {
        None => -75,
        Some(end) => {
            if end > NO_ADDRESS {
                -14
            } else {
                number_fault(entry.off, count)
            }
        }
    }
}

/// The fault of so many numbers from the first on, or 0.
fn number_fault(first: u64, count: u64) -> i32
    requires { count < 4294967296 }
    ensures { result ≡ spec.number_fault first count }
{
    if first > 0xffff {
        -7
    } else if first + count > 0x1_0000 {
        -22
    } else {
        0
    }
}
