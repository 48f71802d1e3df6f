//! Which lines of the kernel's list of locks are of a process's on a file. proc_locks(5), fcntl(2).

ghost use Rattle.std.specs.Prelude.{◌≡◌};
ghost use Rattle.uring_register.specs.KernelLists.Locks as spec;

use crate::kernel_lists::texts::{after_word, first_word, is_number, part_of, value_of};

/// Whether a line is of a lock that this process has on the file of this inode, or waits for.
pub fn is_lock_of(line: &[u8], process: u32, inode: u64) -> bool
    ensures { result ≡ spec.is_lock_of line.now process inode }
{
    let lock = lock_of(line);
    let owner = after_word(after_word(after_word(lock)));
    let file = after_word(owner);
    is_record_lock(first_word(lock))
        && names(first_word(owner), process as u64)
        && names(part_of(first_word(file), 2), inode)
}

/// What a line says of its lock: what stands after its number, and after the arrow of one that is waited for.
fn lock_of(line: &[u8]) -> &[u8]
    ensures { result.now ≡ spec.lock_of line.now }
{
    let rest = after_word(line);
    if first_word(rest) == b"->".as_slice() {
        after_word(rest)
    } else {
        rest
    }
}

fn is_record_lock(word: &[u8]) -> bool
    ensures { result ≡ spec.is_record_lock word.now }
{
    word == b"POSIX".as_slice()
}

/// Whether digits are those of a number.
fn names(digits: &[u8], number: u64) -> bool
    ensures { result ≡ spec.names digits.now number }
{
    is_number(10, digits) && value_of(10, digits) == number as u128
}
