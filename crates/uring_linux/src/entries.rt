//! What counts of an entry's flags, by Linux's rules.
ghost use Rattle.std.specs.Prelude.{◌≡◌};
ghost use Rattle.uring_linux.specs.LinuxRequests as linux;

use uring_entry::{Fault, Sqe, SqeFlags, prepare};

/// Whether an entry comes past Linux's first look: its operation and its flags aren't refused.
pub(crate) fn is_past(entry: &Sqe) -> bool
    ensures { result ≡ linux.is_past entry.now }
{
    match prepare(entry) {
        Ok(_) => true,
        Err(Fault::Flags) => false,
        Err(Fault::Opcode) => false,
        Err(_) => true,
    }
}

/// Whether an entry asks for skipped success and comes past the first look, so that the ring refuses drains from then on, whatever else is wrong with the entry.
pub fn asks_to_skip(entry: &Sqe) -> bool
    ensures { result ≡ linux.asks_to_skip entry.now }
{
    entry.has(SqeFlags::CQE_SKIP_SUCCESS) && is_past(entry)
}

/// Whether an entry asks to drain and comes past the first look, so that it drains or is refused as a drain, whatever else is wrong with it.
pub fn asks_to_drain(entry: &Sqe) -> bool
    ensures { result ≡ linux.asks_to_drain entry.now }
{
    entry.is_drain() && is_past(entry)
}
