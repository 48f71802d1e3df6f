//! A system call of Linux on x86-64: its number and its arguments. syscall(2); the numbers are those of <asm/unistd_64.h>.

ghost use Rattle.std.specs.Prelude.{◌≡◌};
ghost use Rattle.uring_operations.specs.Calls.SystemCalls as spec;

pub(crate) const WRITE: u64 = 1;

pub(crate) const OPEN: u64 = 2;

pub(crate) const CLOSE: u64 = 3;

pub(crate) const MMAP: u64 = 9;

pub(crate) const PREAD64: u64 = 17;

pub(crate) const PWRITE64: u64 = 18;

pub(crate) const WRITEV: u64 = 20;

pub(crate) const MSYNC: u64 = 26;

pub(crate) const MADVISE: u64 = 28;

pub(crate) const SENDFILE: u64 = 40;

pub(crate) const SOCKET: u64 = 41;

pub(crate) const CONNECT: u64 = 42;

pub(crate) const SENDTO: u64 = 44;

pub(crate) const SENDMSG: u64 = 46;

pub(crate) const RECVMSG: u64 = 47;

pub(crate) const SHUTDOWN: u64 = 48;

pub(crate) const BIND: u64 = 49;

pub(crate) const LISTEN: u64 = 50;

pub(crate) const FCNTL: u64 = 72;

pub(crate) const FSYNC: u64 = 74;

pub(crate) const FDATASYNC: u64 = 75;

pub(crate) const TRUNCATE: u64 = 76;

pub(crate) const FTRUNCATE: u64 = 77;

pub(crate) const RENAME: u64 = 82;

pub(crate) const MKDIR: u64 = 83;

pub(crate) const RMDIR: u64 = 84;

pub(crate) const CREAT: u64 = 85;

pub(crate) const LINK: u64 = 86;

pub(crate) const UNLINK: u64 = 87;

pub(crate) const SYMLINK: u64 = 88;

pub(crate) const SYNC: u64 = 162;

pub(crate) const SETXATTR: u64 = 188;

pub(crate) const FSETXATTR: u64 = 190;

pub(crate) const GETXATTR: u64 = 191;

pub(crate) const FGETXATTR: u64 = 193;

pub(crate) const FADVISE64: u64 = 221;

pub(crate) const EXIT_GROUP: u64 = 231;

pub(crate) const EPOLL_CTL: u64 = 233;

pub(crate) const OPENAT: u64 = 257;

pub(crate) const MKDIRAT: u64 = 258;

pub(crate) const UNLINKAT: u64 = 263;

pub(crate) const RENAMEAT: u64 = 264;

pub(crate) const LINKAT: u64 = 265;

pub(crate) const SYMLINKAT: u64 = 266;

pub(crate) const SPLICE: u64 = 275;

pub(crate) const TEE: u64 = 276;

pub(crate) const SYNC_FILE_RANGE: u64 = 277;

pub(crate) const FALLOCATE: u64 = 285;

pub(crate) const ACCEPT4: u64 = 288;

pub(crate) const PWRITEV: u64 = 296;

pub(crate) const SYNCFS: u64 = 306;

pub(crate) const RENAMEAT2: u64 = 316;

pub(crate) const COPY_FILE_RANGE: u64 = 326;

pub(crate) const PREADV2: u64 = 327;

pub(crate) const PWRITEV2: u64 = 328;

pub(crate) const STATX: u64 = 332;

pub(crate) const OPENAT2: u64 = 437;

/// A system call. An argument that it hasn't is 0, and of one of 32 bits the lower half counts.
#[repr(C)]
#[derive(Clone, Copy, Drop)]
pub struct SystemCall {
    pub number: u64,

    pub first: u64,

    pub second: u64,

    pub third: u64,

    pub fourth: u64,

    pub fifth: u64,

    pub sixth: u64,
}

impl SystemCall {
    /// A call of three arguments, or fewer.
    pub(crate) fn of_three(number: u64, first: u64, second: u64, third: u64) -> SystemCall
        ensures { result ≡ spec.of_three number first second third }
    {
        SystemCall::of_five(number, first, second, third, 0, 0)
    }

    /// A call of four arguments.
    pub(crate) fn of_four(
        number: u64,
        first: u64,
        second: u64,
        third: u64,
        fourth: u64,
    ) -> SystemCall
        ensures { result ≡ spec.of_four number first second third fourth }
    {
        SystemCall::of_five(number, first, second, third, fourth, 0)
    }

    /// A call of five arguments.
    pub(crate) fn of_five(
        number: u64,
        first: u64,
        second: u64,
        third: u64,
        fourth: u64,
        fifth: u64,
    ) -> SystemCall
        ensures { result ≡ spec.of_five number first second third fourth fifth }
    {
        SystemCall {
            number,
            first,
            second,
            third,
            fourth,
            fifth,
            sixth: 0,
        }
    }
}

/// A number of 32 bits with a sign, as a register has it.
pub(crate) fn word_of(number: i32) -> u64
    ensures { result ≡ spec.word_of number }
{
    i64::from(number).cast_unsigned()
}
