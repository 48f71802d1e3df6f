//! Which calls of io_uring_register(2) there are, and with which error each is refused for its arguments.

ghost use Rattle.std.specs.Prelude.{◌≡◌, ◌&&◌, ◌==◌};
ghost use Rattle.uring_register.specs.Calls.Calling as spec;

/// A call that is served.
#[derive(Clone, Copy)]
pub enum Call {
    RegisterBuffers,
    UnregisterBuffers,
    RegisterFiles,
    UnregisterFiles,
    RegisterEventfd,
    UnregisterEventfd,
    UpdateFiles,

    /// Of an eventfd that is told of what ends asynchronously alone.
    RegisterEventfdAsync,

    /// Asks which operations there are.
    Probe,
    RegisterRestrictions,
    EnableRing,

    /// Of those that come by a structure that says its own size.
    RegisterFilesSized,
    UpdateFilesSized,
    RegisterBuffersSized,
    UpdateBuffersSized,

    /// Gives rings numbers.
    EnrollRings,

    /// And takes them back.
    DismissRings,

    /// Of a ring of provided buffers.
    RegisterBufferRing,
    UnregisterBufferRing,

    /// A cancel that returns once what it found has ended.
    Cancel,

    /// Says which slots are given out.
    GiveOut,
}

/// Who calls on what.
#[repr(C)]
#[derive(Clone, Copy, Drop)]
pub struct Caller {
    /// The descriptor that is called on.
    pub fd: i32,

    /// Whether it is open, and a ring's.
    pub is_open: bool,

    pub is_ring: bool,

    /// Whether another thread alone may call on the ring.
    pub is_another: bool,

    /// Whether the ring's restrictions allow the call.
    pub is_allowed: bool,
}

/// What a call has read, as far as it has it.
#[repr(C)]
#[derive(Clone, Copy, Drop)]
pub struct Content {
    /// How many it is of.
    pub nr: u32,

    pub flags: u32,

    /// Whether a reserved field isn't 0.
    pub has_reserved: bool,

    /// Whether it names a list.
    pub has_data: bool,
}

/// The call of a number. `None`: it isn't served.
pub fn call_of(code: u32) -> Option<Call>
    ensures { result ≡ spec.call_of code }
{
    match code {
        0 => Some(Call::RegisterBuffers),
        1 => Some(Call::UnregisterBuffers),
        2 => Some(Call::RegisterFiles),
        3 => Some(Call::UnregisterFiles),
        4 => Some(Call::RegisterEventfd),
        5 => Some(Call::UnregisterEventfd),
        6 => Some(Call::UpdateFiles),
        7 => Some(Call::RegisterEventfdAsync),
        8 => Some(Call::Probe),
        11 => Some(Call::RegisterRestrictions),
        12 => Some(Call::EnableRing),
        13 => Some(Call::RegisterFilesSized),
        14 => Some(Call::UpdateFilesSized),
        15 => Some(Call::RegisterBuffersSized),
        16 => Some(Call::UpdateBuffersSized),
        20 => Some(Call::EnrollRings),
        21 => Some(Call::DismissRings),
        22 => Some(Call::RegisterBufferRing),
        23 => Some(Call::UnregisterBufferRing),
        24 => Some(Call::Cancel),
        25 => Some(Call::GiveOut),
        _ => None,
    }
}

/// The fault of who makes the call of a number on what, or 0.
pub fn calling_fault(code: u32, caller: &Caller) -> i32
    ensures { result ≡ spec.calling_fault code caller.now }
{
    if code >= 36 || caller.fd == -1 {
        -22
    } else if !caller.is_open {
        -9
    } else if !caller.is_ring {
        -95
    } else if caller.is_another {
        -17
    } else if !caller.is_allowed {
        -13
    } else if call_of(code).is_none() {
        -22
    } else {
        0
    }
}

fn unless(holds: bool) -> i32
    ensures { result ≡ spec.unless holds }
{
    if holds { 0 } else { -22 }
}

/// The fault of a call's argument and its count, before anything is read; or 0.
pub fn argument_fault(call: Call, has_argument: bool, count: u32) -> i32
    ensures { result ≡ spec.argument_fault call has_argument count }
{
    match call {
        Call::RegisterBuffers | Call::RegisterFiles => { if has_argument { 0 } else { -14 } }
        Call::UpdateFiles => unless(count != 0),
        Call::RegisterFilesSized
        | Call::UpdateFilesSized
        | Call::RegisterBuffersSized
        | Call::UpdateBuffersSized => unless(count == 32),
        Call::GiveOut => unless(has_argument && count == 0),
        Call::UnregisterBuffers
        | Call::UnregisterFiles
        | Call::UnregisterEventfd
        | Call::EnableRing => unless(!has_argument && count == 0),
        Call::RegisterEventfd | Call::RegisterEventfdAsync => unless(count == 1),
        Call::Probe => unless(has_argument && count <= 256),
        Call::RegisterBufferRing | Call::UnregisterBufferRing | Call::Cancel => {
            unless(has_argument && count == 1)
        }
        Call::EnrollRings | Call::DismissRings => unless(count != 0 && count <= 16),
        Call::RegisterRestrictions => 0,
    }
}

/// The fault of what a call has read, or couldn't read; or 0.
pub fn content_fault(call: Call, is_read: bool, content: &Content) -> i32
    ensures { result ≡ spec.content_fault call is_read content.now }
{
    if is_read {
        unless(is_content(call, content))
    } else {
        -14
    }
}

fn is_content(call: Call, content: &Content) -> bool
    ensures { result ≡ spec.is_content call content.now }
{
    match call {
        Call::RegisterFilesSized | Call::RegisterBuffersSized => is_table(content),
        Call::UpdateFiles | Call::UpdateFilesSized | Call::UpdateBuffersSized => {
            content.nr != 0 && !content.has_reserved
        }
        Call::Cancel => is_cancel(content),
        Call::Probe => !content.has_reserved,
        _ => true,
    }
}

fn is_table(content: &Content) -> bool
    ensures { result ≡ spec.is_table content.now }
{
    let is_bare = content.nr != 0 && !content.has_reserved && content.flags & !1 == 0;
    is_bare && !(content.flags & 1 != 0 && content.has_data)
}

fn is_cancel(content: &Content) -> bool
    ensures { result ≡ spec.is_cancel content.now }
{
    !content.has_reserved && content.flags & !15 == 0
}

/// What a probe tells in front of its rows. `struct io_uring_probe`.
#[repr(C)]
#[derive(Clone, Copy, Drop)]
pub struct Probe {
    /// The last operation that there is.
    pub last: u8,

    /// How many rows are looked at, and told.
    pub rows: u8,
}

/// What a probe tells that is asked for so many rows. Of each `probed_flags` says whether it is served.
pub fn probe_of(count: u32) -> Probe
    ensures { result ≡ spec.probe_of count }
{
    Probe {
        last: 57,
        rows: count.min(58) as u8,
    }
}

/// Whether the call of a number may post completions: it ends requests, or takes files or buffers out of their table, whose tags are told. One that isn't served posts none.
pub fn may_post(code: u32) -> bool
    ensures { result ≡ spec.may_post code }
{
    match call_of(code) {
        Some(call) => ends_requests(call) || takes_out(call),
        None => false,
    }
}

fn ends_requests(call: Call) -> bool
    ensures { result ≡ spec.ends_requests call }
{
    matches!(call, Call::Cancel)
}

fn takes_out(call: Call) -> bool
    ensures { result ≡ spec.takes_out call }
{
    match call {
        Call::UnregisterBuffers | Call::UpdateBuffersSized => true,
        Call::UnregisterFiles | Call::UpdateFiles | Call::UpdateFilesSized => true,
        _ => false,
    }
}

/// Whether the eventfd that the call of a number registers is told of what ends asynchronously alone. io_uring_register(2), IORING_REGISTER_EVENTFD_ASYNC.
pub fn tells_async_alone(code: u32) -> bool
    ensures { result ≡ spec.tells_async_alone code }
{
    match call_of(code) {
        Some(call) => is_async_call(call),
        None => false,
    }
}

fn is_async_call(call: Call) -> bool
    ensures { result ≡ spec.is_async_call call }
{
    matches!(call, Call::RegisterEventfdAsync)
}
