//! What is asked of select(2) in the place of poll(2), and what it tells. select(2), Correspondence between select() and poll() notifications.

ghost use Rattle.std.specs.Prelude.{◌≡◌};
ghost use Rattle.uring_enter.specs.Waiting.Selecting as spec;

/// In which sets of select(2) a descriptor stands.
#[repr(C)]
#[derive(Clone, Copy, Drop)]
pub struct Sets {
    pub is_readable: bool,

    pub is_writable: bool,

    /// That of exceptional conditions.
    pub is_urgent: bool,
}

/// The sets in which one stands that is asked for these events.
pub fn select_sets(events: u16) -> Sets
    ensures { result ≡ spec.select_sets events }
{
    Sets {
        is_readable: events & 8385 != 0,
        is_writable: events & 772 != 0,
        is_urgent: events & 2 != 0,
    }
}

/// The events that one shows which was asked for these, is open or isn't, and stands in these sets after select(2).
pub fn told_by_select(events: u16, is_open: bool, found: &Sets) -> u16
    ensures { result ≡ spec.told_by_select events is_open found.now }
{
    if !is_open {
        return 32;
    }
    let readable = told_by(found.is_readable, events, 65, 8320);
    let writable = told_by(found.is_writable, events, 260, 512);
    let urgent = told_by(found.is_urgent, events, 2, 0);
    readable | writable | urgent
}

/// What a set tells in which one stands or doesn't.
fn told_by(is_in: bool, events: u16, likely: u16, rest: u16) -> u16
    ensures { result ≡ spec.told_by is_in events likely rest }
{
    if !is_in {
        0
    } else if events & likely != 0 {
        events & likely
    } else {
        events & rest
    }
}
