//! The operations, on the file that each is on: how it ends there, what it makes of the file, and what it asks of files for those that needn't know which operations there are.

ghost use Rattle.std.specs.Prelude.{◌≡◌, ◌↔◌, ◌≤◌, List, length, pos, true, IsTrue};
ghost use Rattle.uring_entry.specs.Layout.{padded};
ghost use Rattle.uring_files.specs.Contents as contents;
ghost use Rattle.uring_files.specs.Contents.{FileContents};
ghost use Rattle.uring_files.specs.Operations as spec;
ghost use Rattle.uring_files.specs.Operations.{IsForFiles, IsShortPut, ended_with, is_lengthening, result_of};

use crate::bytes::overwrite;
use crate::change::{Change, has_effect};
use crate::file::File;
use crate::files::Files;
use uring_entry::{Op, Outcome, errno};
use uring_memory::Memory;

/// The descriptor of the file that an operation is on, whether there is such a file or not: `None` for a no-op and a cancel, which are on none. io_uring_enter(2), at each operation.
pub fn file_asked(op: &Op) -> Option<i32>
    ensures { result ≡ spec.file_asked op.now }
{
    match op {
        Op::Read { fd, .. } => Some(*fd),
        Op::Write { fd, .. } => Some(*fd),
        Op::Fsync { fd } => Some(*fd),
        Op::Nop | Op::Cancel { .. } => None,
    }
}

/// How many bytes an operation that lengthens its file gives if it succeeds: those of a write, and 0 of any other operation.
pub fn written_length(op: &Op) -> i32
    requires { IsForFiles op.now }
    ensures { (files : List FileContents) → is_lengthening files op.now ≡ true
        → result_of files op.now ≡ ended_with result }
{
    match op {
        Op::Write { len, .. } => *len as i32,
        _ => 0,
    }
}

/// Whether an operation can be asked of files: any but a cancel, and no transfer of more than 64 bytes.
pub fn is_for_files(op: &Op) -> bool
    ensures { IsTrue result ↔ IsForFiles op.now }
{
    match op {
        Op::Nop | Op::Fsync { .. } => true,
        Op::Read { len, .. } | Op::Write { len, .. } => *len <= 64,
        Op::Cancel { .. } => false,
    }
}

/// What an operation changes of its file, if that has so many bytes and the operation ends with success. No operation changes of a longer file what it doesn't change of a shorter one.
pub fn change_by(op: &Op, _length: u64) -> Change
    ensures value { result ≡ spec.change_by op.now _length }
    ensures short { IsForFiles op.now → IsShortPut result }
{
    match op {
        Op::Write {
            fd,
            off,
            len,
            bytes,
        } if has_effect(*off, *len) => Change::Put {
            fd: *fd,
            off: *off,
            len: *len,
            bytes: *bytes,
            given: *len as i32,
        },
        Op::Fsync { fd } => Change::Sync { fd: *fd },
        _ => Change::Nothing,
    }
}

impl Files {
    ghost use Rattle.std.specs.Prelude.{◌≡◌, ◌≤◌, ℕ};
    ghost use Rattle.uring_files.specs.Contents.{max_len};
    ghost use Rattle.uring_files.specs.Operations as spec;
    ghost use Rattle.uring_files.specs.Operations.{IsForFiles, IsOutcome, is_lengthening, result_of, after};

    /// Carries out an operation, any but a cancel, that moves at most 64 bytes, and returns how it ended. A result of 0 or more is that of a success, and one below 0 the negative of an error number; such an end changes no file.
    ///
    /// - A no-op gives 0.
    /// - Any other operation ends with -9 (EBADF) if its descriptor is negative or not below the number of files, before anything else is looked at.
    /// - A read gives the bytes from its offset on, as many as it asks for and as the file has, and returns how many: 0 at or past the file's end.
    /// - A write of no bytes gives 0 at any offset, and counts as a successful write. One that would make its file longer than 65,536 bytes ends with -27 (EFBIG), and one that lengthens its file with -12 (ENOMEM) if memory was refused. Else it returns how many bytes it wrote, and a gap between the file's end and its offset is filled with zeros.
    /// - A sync gives 0, and notes the successful writes of its file so far as safe.
    ///
    /// Only a write that lengthens its file takes memory. What the operations do is that of io_uring_enter(2), IORING_OP_NOP, READ, WRITE and FSYNC, and EBADF of its CQE ERRORS. The largest size, that a write past it changes nothing, and that files are in memory, are our own rule.
    pub fn apply(&mut self, op: &Op) -> Outcome
        requires { IsForFiles op.now }
        ensures outcome { IsOutcome self.old op.now result }
        ensures files { self.new ≡ after self.old op.now result.res }
    {
        let memory = *self.files.allocator();
        self.apply_in(&memory, op)
    }

    /// As `apply`, by this memory. If it grants 65,536 elements, the outcome is the one called for, and never -12.
    pub fn apply_in<M: Memory>(&mut self, memory: &M, op: &Op) -> Outcome
        requires { IsForFiles op.now }
        ensures outcome { IsOutcome self.old op.now result }
        ensures files { self.new ≡ after self.old op.now result.res }
        ensures granted { (n : ℕ) → M.grants memory.now n → max_len ≤ n
            → result ≡ result_of self.old op.now }
    {
        match op {
            Op::Nop => with_result(0),
            Op::Read { fd, off, len } => self.read(*fd, *off, *len),
            Op::Write {
                fd,
                off,
                len,
                bytes,
            } => with_result(self.write(memory, *fd, *off, *len, bytes)),
            Op::Fsync { fd } => with_result(self.sync(*fd)),
            Op::Cancel { .. } => unreachable!(),
        }
    }

    /// Whether an operation is a write that makes its file longer, within the largest size. Such a one alone asks `apply` for memory, and may end with -12 (ENOMEM) in place of its success.
    pub fn lengthens(&self, op: &Op) -> bool
        ensures { result ≡ is_lengthening self.now op.now }
    {
        match op {
            Op::Write { fd, off, len, .. } => {
                match (self.file(*fd), off.checked_add(u64::from(*len))) {
                    (Some(file), Some(end)) => {
                        *len != 0
                            && end <= u64::from(File::MAX_LEN)
                            && end > file.bytes.len() as u64
                    }
                    _ => false,
                }
            }
            _ => false,
        }
    }

    /// The outcome that an operation calls for, which isn't carried out.
    pub fn called_for(&self, op: &Op) -> Outcome
        requires { IsForFiles op.now }
        ensures { result ≡ result_of self.now op.now }
    {
        match op {
            Op::Nop | Op::Cancel { .. } => with_result(0),
            Op::Read { fd, off, len } => self.read(*fd, *off, *len),
            Op::Write { fd, .. } | Op::Fsync { fd } if self.file(*fd).is_none() => {
                with_result(-errno::EBADF)
            }
            Op::Write { off, len, .. } if is_too_long(*off, *len) => with_result(-errno::EFBIG),
            Op::Write { len, .. } => with_result(*len as i32),
            Op::Fsync { .. } => with_result(0),
        }
    }

    /// Reads at most `len` bytes of the file of a descriptor from `off` on.
    fn read(&self, fd: i32, off: u64, len: u32) -> Outcome
        requires { len ≤ 64 }
        ensures { result ≡ result_of self.now (Op.Read fd off len) }
    {
        let Some(file) = self.file(fd) else {
            return with_result(-errno::EBADF);
        };
        let start = file.bytes.len().min(off as usize);
        let end = file.bytes.len().min(start + len as usize);
        found(&file.bytes[start..end])
    }

    /// Writes the first `len` of the bytes to the file of a descriptor at `off`, and returns the result.
    fn write<M: Memory>(&mut self, memory: &M, fd: i32, off: u64, len: u32, bytes: &[u8; 64]) -> i32
        requires { len ≤ 64 }
        ensures outcome { IsOutcome self.old (Op.Write fd off len bytes.now)
            (spec.ended_with result) }
        ensures files { self.new ≡ after self.old (Op.Write fd off len bytes.now) result }
        ensures granted { (n : ℕ) → M.grants memory.now n → max_len ≤ n
            → spec.ended_with result ≡ result_of self.old (Op.Write fd off len bytes.now) }
    {
        let Some(place) = self.place(fd) else {
            return -errno::EBADF;
        };
        self.files[place].write(memory, off, len, bytes)
    }

    /// Notes the successful writes of the file of a descriptor as safe, and returns the result.
    fn sync(&mut self, fd: i32) -> i32
        ensures outcome { spec.ended_with result ≡ result_of self.old (Op.Fsync fd) }
        ensures files { self.new ≡ after self.old (Op.Fsync fd) result }
    {
        let Some(place) = self.place(fd) else {
            return -errno::EBADF;
        };
        let file = &mut self.files[place];
        file.synced = file.writes;
        0
    }
}

impl File {
    ghost use Rattle.std.specs.Ordering.{int_eq};
    ghost use Rattle.std.specs.Prelude.{◌≡◌, ℕ, ◌≤◌, ◌⊎◌, pos, neg_ℤ, true, not, ◌&&◌, take, if◌then◌else◌};
    ghost use Rattle.uring_entry.specs.declared.errno.TheConstants.{EFBIG, ENOMEM};
    ghost use Rattle.uring_files.specs.Contents.{max_len, is_too_long, is_past_end, written};

    /// Writes the first `len` of the bytes at `off`, grows by this memory, and returns the result. One below 0 changes nothing.
    pub(crate) fn write<M: Memory>(
        &mut self,
        memory: &M,
        off: u64,
        len: u32,
        bytes: &[u8; 64],
    ) -> i32
        requires { len ≤ 64 }
        ensures outcome { (result ≡ (if is_too_long off len then neg_ℤ EFBIG else pos len))
            ⊎ (((not (is_too_long off len) && is_past_end off len self.old) ≡ true) × (result ≡ neg_ℤ ENOMEM)) }
        ensures file { self.new
            ≡ (if int_eq result (pos len) then written off (take len bytes.now) self.old else self.old) }
        ensures granted { (n : ℕ) → M.grants memory.now n → max_len ≤ n
            → result ≡ (if is_too_long off len then neg_ℤ EFBIG else pos len) }
    {
        if is_too_long(off, len) {
            return -errno::EFBIG;
        }
        if len != 0 {
            let Ok(()) = overwrite(
                memory,
                &mut self.bytes,
                off as usize,
                &bytes[..len as usize],
            ) else {
                return -errno::ENOMEM;
            };
        }
        self.writes = self.writes.wrapping_add(1);
        len as i32
    }
}

/// Whether a write of `len` bytes at `off` would pass the largest size.
fn is_too_long(off: u64, len: u32) -> bool
    requires { len ≤ 64 }
    ensures { result ≡ contents.is_too_long off len }
{
    len != 0 && off > u64::from(File::MAX_LEN) - u64::from(len)
}

/// The end of a read that found these bytes.
fn found(bytes: &[u8]) -> Outcome
    requires { length bytes.now ≤ 64 }
    ensures { result ≡ record { res = pos (length bytes.now); bytes = padded bytes.now } }
{
    let mut all = [0; 64];
    all[..bytes.len()].copy_from_slice(bytes);
    Outcome {
        res: bytes.len() as i32,
        bytes: all,
    }
}

/// An end with this result and no bytes.
pub(crate) fn with_result(res: i32) -> Outcome
    ensures { result ≡ spec.ended_with res }
{
    Outcome {
        res,
        bytes: [0; 64],
    }
}
