//! In which steps a ring's memory is told what was taken, and what the application has reaped is heard. Each set is done by rising bits. io_uring(7).

ghost use Rattle.std.specs.Prelude.{◌≡◌, if◌then◌else◌};
ghost use Rattle.uring_enter.specs.Completions.Storing as spec;

/// What is done once the core has taken what a call has staged: how many words named no slot is stored (1), then the head (2); then what was taken is noted, and may go on (4).
pub fn taken_steps() -> u32
    ensures { result ≡ spec.taken_steps }
{
    bit(1, true) | bit(2, true) | bit(4, true)
}

/// What is done where so many completions were reaped since it was last heard, and those are asked for that have overflowed, or aren't: what has ended is shown (1), the core is told what was reaped (2), and what has overflowed is moved, if there is room (4).
pub fn heard_steps(reaped: u32, is_asked: bool) -> u32
    ensures { result ≡ spec.heard_steps reaped is_asked }
{
    let is_any = reaped > 0 || is_asked;
    bit(1, is_any) | bit(2, reaped > 0) | bit(4, is_any)
}

/// Where it is heard what the application has reaped.
#[derive(Clone, Copy, Drop)]
pub enum Occasion {
    /// A call says so, and asks for what has overflowed, or doesn't.
    Call(bool),

    /// Something has gone on in a call.
    Step,

    /// A completion may be posted after it: an operation is carried out, or what no operation ends with is told.
    Posting,
}

/// Whether what has overflowed is asked for there.
pub fn asks_overflow(occasion: Occasion) -> bool
    ensures { result ≡ spec.asks_overflow occasion }
{
    match occasion {
        Occasion::Call(asks) => asks,
        Occasion::Step | Occasion::Posting => false,
    }
}

/// Whether the ring is shown anew after so many completions that have moved into it.
pub fn shows_again(moved: u64) -> bool
    ensures { result ≡ spec.shows_again moved }
{
    moved > 0
}

fn bit(weight: u32, is_done: bool) -> u32
    ensures { result ≡ (if is_done then weight else 0) }
{
    if is_done { weight } else { 0 }
}
