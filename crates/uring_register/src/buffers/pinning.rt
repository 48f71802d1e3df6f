//! Which memory may be registered as a buffer, or as a ring of buffers: its pages stay, and are written. io_uring_register(2), IORING_REGISTER_BUFFERS and IORING_REGISTER_PBUF_RING.

ghost use Rattle.std.specs.Prelude.{◌≡◌, ◌+◌, ◌-◌, ◌^◌, nat_lt};
ghost use Rattle.uring_register.specs.Buffers.Pinning as spec;

/// Memory that is to be registered, and what is known of it.
#[repr(C)]
#[derive(Clone, Copy, Drop)]
pub struct Memory {
    /// Its address,
    pub from: u64,

    /// and its bytes.
    pub size: u64,

    /// The bytes of a page.
    pub page: u64,

    /// Its pages could be asked for, to be written,
    pub is_asked: bool,

    /// and are there.
    pub is_there: bool,

    /// It is known with which files it is shared,
    pub is_listed: bool,

    /// and one of them is written back.
    pub is_written_back: bool,
}

/// Whether it is known with which files memory is shared, by the kernel's list of it: it was read to its end or wasn't, and so many of its lines say what they are of.
pub fn is_listed(is_whole: bool, lines: u64) -> bool
    ensures { result ≡ spec.is_listed is_whole lines }
{
    is_whole && 0 < lines
}

/// The fault of registering this memory, or 0.
pub fn pinning_fault(memory: &Memory) -> i32
    ensures { result ≡ spec.pinning_fault memory.now }
{
    if !has_end(memory.from, memory.size, memory.page) {
        -75
    } else if memory.is_asked && !memory.is_there {
        -14
    } else if memory.is_listed && memory.is_written_back {
        -14
    } else {
        0
    }
}

/// Whether the addresses reach to the end of the last page.
fn has_end(from: u64, size: u64, page: u64) -> bool
    ensures { result ≡ nat_lt (from + size + (page - 1)) (2 ^ 64) }
{
    match from.checked_add(size) {
        None => false,
        Some(end) => end.checked_add(page.saturating_sub(1)).is_some(),
    }
}

/// Whether one of so many bytes from an address on stands between a start and an end, as of memory that is mapped.
pub fn has_byte_of(from: u64, size: u64, start: u64, end: u64) -> bool
    ensures { result ≡ spec.has_byte_of from size start end }
{
    from < end && is_before_end(from, size, start)
}

fn is_before_end(from: u64, size: u64, start: u64) -> bool
    ensures { result ≡ nat_lt start (from + size) }
{
    match from.checked_add(size) {
        None => true,
        Some(end) => start < end,
    }
}

/// Whether the kernel writes a file back that is shared: the major number of its device, and the kind of its file system, if that is known.
pub fn is_written_back(major: u32, kind: Option<u64>) -> bool
    ensures { result ≡ spec.is_written_back major kind }
{
    major != 0 || is_kept_elsewhere(kind)
}

fn is_kept_elsewhere(kind: Option<u64>) -> bool
    ensures { result ≡ spec.is_kept_elsewhere kind }
{
    match kind {
        None => false,
        Some(kind) => kind != 0x0102_1994 && kind != 0x8584_58f6 && kind != 0x9584_58f6,
    }
}
