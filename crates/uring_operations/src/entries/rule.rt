//! The rule of each operation: which fields of its entry must be 0, which flags of its own it knows, and what else holds. io_uring_enter(2), DESCRIPTION and CQE ERRORS.

ghost use Rattle.std.specs.Prelude.{◌≡◌};
ghost use Rattle.uring_operations.specs.Entries.Rules as spec;

/// The fields of an entry, a bit each.
pub(crate) const PRIORITY: u16 = 1;

pub(crate) const OFFSET: u16 = 2;

pub(crate) const ADDRESS: u16 = 4;

pub(crate) const LENGTH: u16 = 8;

pub(crate) const FLAGS: u16 = 16;

pub(crate) const BUFFER: u16 = 32;

pub(crate) const SLOT: u16 = 64;

pub(crate) const THIRD: u16 = 128;

pub(crate) const PAD: u16 = 256;

/// All flags of an operation.
pub(crate) const ANY: u32 = 0xffff_ffff;

/// The flags of splice(2), and SPLICE_F_FD_IN_FIXED.
const OF_SPLICE: u32 = 0x8000_000f;

/// `SOCK_NONBLOCK` and `SOCK_CLOEXEC`.
const OF_SOCKET: u32 = 0x80800;

/// What an operation asks of its entry, beside fields that must be 0 and flags that it knows.
#[derive(Clone, Copy, Drop)]
pub enum Also {
    Nothing,

    /// Of a transfer: a priority that there is.
    Transfer,

    /// Of one by vectors: the same, and 1,024 of them at most.
    Vectors,

    Sync,

    Poll,

    /// What removes or updates a poll.
    PollRemoval,

    Timeout,

    LinkedTimeout,

    /// What removes or updates a timeout.
    TimeoutRemoval,

    Cancel,

    /// An open by a structure.
    OpenHow,

    Close,

    FilesUpdate,

    /// Provided buffers that are removed.
    ProvisionRemoval,

    Socket,

    Accept,

    Send,

    SendMessage,

    Receive,

    /// A send without copies.
    SendZeroCopy,

    SendMessageZeroCopy,

    /// Of what takes a provided buffer, and no other.
    Selection,
}

/// The rule of an operation.
#[derive(Clone, Copy, Drop)]
pub struct Rule {
    /// The fields that must be 0.
    pub barred: u16,

    /// The operation's flags that it knows.
    pub flags: u32,

    pub also: Also,
}

/// The rule of an operation. `None`: it isn't served.
pub fn rule_of(code: u8) -> Option<Rule>
    ensures { result ≡ spec.rule_of code }
{
    match code {
        0 => row(PRIORITY, 31, Also::Nothing),
        1 | 2 => row(PAD, ANY, Also::Vectors),
        3 => row(PRIORITY | ADDRESS | BUFFER | SLOT, 1, Also::Sync),
        4 | 5 | 22 | 23 => row(PAD, ANY, Also::Transfer),
        6 => row(PRIORITY | OFFSET | ADDRESS | BUFFER, ANY, Also::Poll),
        7 => row(PRIORITY | BUFFER | SLOT, ANY, Also::PollRemoval),
        8 => bars(PRIORITY | ADDRESS | BUFFER | SLOT),
        9 => row(OFFSET | SLOT, ANY, Also::SendMessage),
        10 => row(OFFSET | SLOT, ANY, Also::Receive),
        13 => row(LENGTH | BUFFER, OF_SOCKET, Also::Accept),
        16 => bars(PRIORITY | LENGTH | FLAGS | BUFFER | SLOT),
        26 => row(0, ANY, Also::Send),
        27 => row(OFFSET | SLOT, ANY, Also::Receive),
        34 => bars(PRIORITY | OFFSET | ADDRESS | FLAGS | BUFFER | SLOT),
        45 => row(PRIORITY | ADDRESS | FLAGS | BUFFER, ANY, Also::Socket),
        47 => row(THIRD | PAD, ANY, Also::SendZeroCopy),
        48 => row(OFFSET | SLOT | THIRD | PAD, ANY, Also::SendMessageZeroCopy),
        49 => row(PRIORITY | ADDRESS | LENGTH | PAD, ANY, Also::Selection),
        11 => row(PRIORITY | BUFFER | SLOT | THIRD | PAD, 45, Also::Timeout),
        12 => row(
            PRIORITY | LENGTH | BUFFER | SLOT | THIRD | PAD,
            19,
            Also::TimeoutRemoval,
        ),
        14 => row(PRIORITY | OFFSET | SLOT, 15, Also::Cancel),
        15 => row(
            PRIORITY | BUFFER | SLOT | THIRD | PAD,
            45,
            Also::LinkedTimeout,
        ),
        17 => bars(PRIORITY | FLAGS | BUFFER | SLOT),
        18 => row(PRIORITY | BUFFER, ANY, Also::Nothing),
        28 => row(PRIORITY, ANY, Also::OpenHow),
        19 => row(
            PRIORITY | OFFSET | ADDRESS | LENGTH | FLAGS | BUFFER,
            ANY,
            Also::Close,
        ),
        20 => row(PRIORITY | FLAGS | SLOT, ANY, Also::FilesUpdate),
        24 | 25 => bars(PRIORITY | BUFFER | SLOT),
        21 | 29 | 35 | 39 => bars(PRIORITY | BUFFER | SLOT),
        30 => row(PRIORITY, OF_SPLICE, Also::Nothing),
        33 => row(PRIORITY | OFFSET | ADDRESS, OF_SPLICE, Also::Nothing),
        31 => bars(PRIORITY | FLAGS | SLOT),
        32 => row(
            PRIORITY | OFFSET | ADDRESS | LENGTH | FLAGS | SLOT,
            ANY,
            Also::ProvisionRemoval,
        ),
        36 => row(
            PRIORITY | OFFSET | LENGTH | BUFFER | SLOT,
            512,
            Also::Nothing,
        ),
        37 => bars(PRIORITY | OFFSET | FLAGS | BUFFER | SLOT),
        38 => bars(PRIORITY | LENGTH | FLAGS | BUFFER | SLOT),
        40 => row(PRIORITY | BUFFER, 3, Also::Nothing),
        41 | 42 => row(PRIORITY, 3, Also::Nothing),
        43 | 44 => row(PRIORITY, 0, Also::Nothing),
        54 => row(
            PRIORITY | OFFSET | ADDRESS | LENGTH | BUFFER | SLOT | THIRD,
            1,
            Also::Nothing,
        ),
        55 => bars(PRIORITY | ADDRESS | LENGTH | FLAGS | BUFFER | SLOT | THIRD),
        56 => bars(PRIORITY | LENGTH | FLAGS | BUFFER | SLOT),
        57 => bars(PRIORITY | OFFSET | ADDRESS | FLAGS | BUFFER | SLOT),
        _ => None,
    }
}

/// Of an operation that asks for nothing else.
fn bars(barred: u16) -> Option<Rule>
    ensures { result ≡ spec.bars barred }
{
    row(barred, ANY, Also::Nothing)
}

fn row(barred: u16, flags: u32, also: Also) -> Option<Rule>
    ensures { result ≡ spec.row barred flags also }
{
    Some(Rule {
        barred,
        flags,
        also,
    })
}

/// What a probe says of the operation of this code. IO_URING_OP_SUPPORTED.
pub fn probed_flags(code: u8) -> u16
    ensures { result ≡ spec.probed_flags code }
{
    if rule_of(code).is_some() { 1 } else { 0 }
}
