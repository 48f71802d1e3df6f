//! Which memory may be registered, what the lines of the kernel's list of memory say, which processors a list names, and which lines are of a lock, for C: functions of `c/include/wulgach_register.h`, `c/include/wulgach_setup.h` and `c/include/wulgach_lookout.h`.
ghost use Rattle.std.specs.Prelude.{◌≡◌, is_some, unwrap_or};
ghost use Rattle.uring_register.specs.Buffers.Pinning as spec;
ghost use Rattle.uring_register.specs.KernelLists.Mapped as maps;
ghost use Rattle.uring_register.specs.KernelLists.Processors as processors;
ghost use Rattle.uring_register.specs.KernelLists.Locks as locks;
ghost use Rattle.uring_ffi.specs.Registered.PinningForm.{known_of};

use crate::written::write_found;
use uring_register::{
    Mapped, Memory, has_byte_of, is_listed, is_lock_of, is_of_a_file, lists_number, mapped_of,
    pinning_fault,
};

/// The fault of registering this memory, or 0.
#[unsafe(no_mangle)]
pub extern "C" fn wulgach_pinning_fault(memory: &Memory) -> i32
    ensures { result ≡ spec.pinning_fault memory.now }
{
    pinning_fault(memory)
}

/// Whether one of so many bytes from an address on stands between a start and an end.
#[unsafe(no_mangle)]
pub extern "C" fn wulgach_has_byte_of(from: u64, size: u64, start: u64, end: u64) -> bool
    ensures { result ≡ spec.has_byte_of from size start end }
{
    has_byte_of(from, size, start, end)
}

/// Whether it is known with which files memory is shared, by the kernel's list of it.
#[unsafe(no_mangle)]
pub extern "C" fn wulgach_is_listed(is_whole: bool, lines: u64) -> bool
    ensures { result ≡ spec.is_listed is_whole lines }
{
    is_listed(is_whole, lines)
}

/// Writes what a line of the kernel's list of a process's memory says. False: it isn't such a line, and nothing is written.
#[unsafe(no_mangle)]
pub extern "C" fn wulgach_mapped_of(line: &[u8], mapped: &mut Mapped) -> bool
    ensures is_line { result ≡ is_some (maps.mapped_of line.now) }
    ensures mapped { mapped.new ≡ unwrap_or (maps.mapped_of line.now) mapped.old }
{
    write_found(mapped_of(line), mapped)
}

/// Whether this memory is shared with a file that the kernel writes back.
#[unsafe(no_mangle)]
pub extern "C" fn wulgach_is_of_a_file(mapped: &Mapped, knows: bool, kind: u64) -> bool
    ensures { result ≡ maps.is_of_a_file mapped.now (known_of knows kind) }
{
    let kind = if knows { Some(kind) } else { None };
    is_of_a_file(mapped, kind)
}

/// Whether a list of processors has a number.
#[unsafe(no_mangle)]
pub extern "C" fn wulgach_lists_number(list: &[u8], number: u32) -> bool
    ensures { result ≡ processors.lists_number list.now number }
{
    lists_number(list, number)
}

/// Whether a line of the kernel's list of locks is of one that this process has on the file of this inode, or waits for.
#[unsafe(no_mangle)]
pub extern "C" fn wulgach_is_lock_of(line: &[u8], process: u32, inode: u64) -> bool
    ensures { result ≡ locks.is_lock_of line.now process inode }
{
    is_lock_of(line, process, inode)
}
