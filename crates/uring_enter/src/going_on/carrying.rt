//! How an operation is carried out: where its result comes from, by which calls, and what is done with it. io_uring_enter(2), at each operation; but where our own rule is named.

ghost use Rattle.std.specs.Prelude.{◌≡◌, if◌then◌else◌};
ghost use Rattle.uring_enter.specs.GoingOn.Carrying as spec;

use uring_operations::{Fault, given_result, is_of_sockets, is_splice, is_transfer};

/// Where the result of a request comes from that is carried out.
#[derive(Clone, Copy, Drop)]
pub enum Source {
    /// What failed of it as it started.
    Start,

    /// Its entry: it is a no-op.
    Entry,

    /// The fault that it is given, which is this.
    Fault(i32),

    /// Its calls, made of half of its bytes,
    HalfOfCalls,

    /// or of all.
    Calls,
}

/// By which calls an operation is carried out.
#[derive(Clone, Copy, Drop)]
pub enum Calls {
    /// Those of a transfer, one after the other, as `next_step` says.
    OfTransfer,

    /// A look at what its descriptor has, as `poll_result` says.
    OfPoll,

    /// Calls that aren't to wait, and looks at its descriptor, in turn, as `next_turn` says.
    InTurn,

    /// One, or what whoever keeps the ring does itself, as `means_of` says.
    Once,
}

/// Where the result of the operation of this code comes from, whose start has found this error, or 0, and which is given this fault, if it is given one. io_uring_enter(2), where a fault is none that it is given; the order is our own rule.
pub fn source_of(code: u8, started: i32, given: Option<Fault>) -> Source
    ensures { result ≡ spec.source_of code started given }
{
    if started < 0 {
        return Source::Start;
    }
    if code == 0 {
        return Source::Entry;
    }
    match given {
        None => Source::Calls,
        Some(fault) => of_fault(fault),
    }
}

fn of_fault(fault: Fault) -> Source
    ensures { result ≡ spec.of_fault fault }
{
    match given_result(fault) {
        Some(res) => Source::Fault(res),
        None => Source::HalfOfCalls,
    }
}

/// How many bytes a vector of this length has of those that a short fault leaves of `all`, where so many stand in the vectors before it: of the first half. Our own rule.
pub fn half_in(all: u64, before: u64, length: u64) -> u64
    ensures { result ≡ spec.half_in all before length }
{
    length.min((all / 2).saturating_sub(before))
}

/// How many bytes a provided buffer of this length counts as having, once a short fault has cut the part of it that a call goes on in, which moves `all` at most: what is cut isn't used again. Our own rule.
pub fn left_of_buffer(length: u64, all: u64, part: u64) -> u64
    ensures { result ≡ spec.left_of_buffer length all part }
{
    length.saturating_sub(part.saturating_sub(half_in(all, 0, part)))
}

/// By which calls the operation of this code is carried out. Our own rule, by what the manual page says of each.
pub fn calls_of(code: u8) -> Calls
    ensures { result ≡ spec.calls_of code }
{
    if is_transfer(code) {
        Calls::OfTransfer
    } else if code == 6 {
        Calls::OfPoll
    } else if is_of_sockets(code) || is_splice(code) {
        Calls::InTurn
    } else {
        Calls::Once
    }
}

/// What is done with the result of a request that was carried out, or that a cancel has found, of a send without copies or of another request, the bit of each step, by rising bits: whether it is a success is judged (1); what the send has come to is told by a completion of its own, so that the request's own shows its notice (2); the core is told of the end (4); and the end is shown, and makes of others what it does (8).
pub fn finish_steps(is_zero_copy: bool) -> u32
    ensures { result ≡ spec.finish_steps is_zero_copy }
{
    bit(1, true) | bit(2, is_zero_copy) | bit(4, true) | bit(8, true)
}

fn bit(weight: u32, is_done: bool) -> u32
    ensures { result ≡ (if is_done then weight else 0) }
{
    if is_done { weight } else { 0 }
}
