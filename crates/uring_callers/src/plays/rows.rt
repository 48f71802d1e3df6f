//! What one thread has all ends do, row by row, with what should come of each.

use super::ends::{Ends, Ports};
use uring_threads::{CloseRefusal, Cqe, Gate, Item, Sqe, SubmitRefusal, Turn, Worked};

/// An item of a call.
#[derive(Clone, Copy)]
pub enum Put {
    /// A no-op with this user data.
    Nop(u64),

    /// One that posts no completion: its flag is IOSQE_CQE_SKIP_SUCCESS.
    Silent(u64),

    /// A sync with this user data, of a file.
    Sync(u64, i32),

    /// A write with this user data, of one byte to the front of a file.
    Write(u64, i32, u8),

    /// A word that names no slot.
    Bad(u32),
}

/// What some end does, and what should come of it.
#[derive(Clone, Copy)]
pub enum Row {
    /// The application submits these items, of which there are at most five.
    Submit(&'static [Put]),

    /// It submits these, and is refused so.
    Refused(&'static [Put], SubmitRefusal),

    /// It closes its end.
    Close,

    /// It closes its end, and is refused so.
    CloseRefused(CloseRefusal),

    /// It reaps the completion of a no-op or a sync with this user data, or finds none.
    Reap(Option<u64>),

    /// It sees this dropped word over shared words, and none over lanes.
    Dropped(u32),

    /// The dispatcher pops, issues, finishes and delivers so many.
    Turn(u64, u64, u64, u64),

    /// The dispatcher has a turn, and one more if memory is refused to the first.
    TurnAgain,

    /// Whether nothing is left to the dispatcher.
    IsIdle(bool),

    /// The worker at this place does this in its turn.
    Work(usize, Worked),

    /// It carries out a job, whichever it is.
    Job(usize),

    /// There is no worker at this place.
    NoWorker(usize),
}

/// The item that goes into a call.
fn item(put: Put) -> Item {
    match put {
        Put::Nop(user_data) => Item::Entry(Sqe::nop(user_data, 0)),
        Put::Silent(user_data) => Item::Entry(Sqe::nop(user_data, 64)),
        Put::Sync(user_data, fd) => Item::Entry(Sqe::fsync(user_data, 0, fd)),
        Put::Write(user_data, fd, byte) => Item::Entry(Sqe::write(user_data, 0, fd, 0, &[byte])),
        Put::Bad(word) => Item::Bad(word),
    }
}

/// These items, and words that name no slot after them.
pub fn items(puts: &[Put]) -> [Item; 5] {
    let mut items = [Item::Bad(u32::MAX); 5];
    for k in 0..puts.len().min(5) {
        items[k] = item(puts[k]);
    }
    items
}

/// The completion of a no-op, or of a sync.
pub fn completion(user_data: u64) -> Cqe {
    Cqe::new(user_data, 0, [0; 64])
}

/// A turn with these numbers.
pub fn turn(popped: u64, issued: u64, finished: u64, delivered: u64) -> Turn {
    Turn {
        popped,
        issued,
        finished,
        delivered,
    }
}

/// Has an end do this. Whether what should came of it.
fn goes<K: Ports, G: Gate>(ends: &mut Ends<K, G>, row: Row) -> bool {
    match row {
        Row::Submit(puts) => ends.submits(puts, Ok(())),
        Row::Refused(puts, refusal) => ends.submits(puts, Err(refusal)),
        Row::Close => ends.app.close() == Ok(()),
        Row::CloseRefused(refusal) => ends.app.close() == Err(refusal),
        Row::Reap(wanted) => ends.app.reap() == wanted.map(completion),
        Row::Dropped(word) => ends.app.dropped() == K::shown(word),
        Row::Turn(popped, issued, finished, delivered) => {
            ends.turn() == Some(turn(popped, issued, finished, delivered))
        }
        Row::TurnAgain => ends.turn().is_some() || ends.turn().is_some(),
        Row::IsIdle(wanted) => ends.kernel.idle() == wanted,
        Row::Work(place, wanted) => ends.work(place) == Some(wanted),
        Row::Job(place) => matches!(ends.work(place), Some(Worked::Done(_))),
        Row::NoWorker(place) => ends.work(place).is_none(),
    }
}

/// Whether what should came of each of these rows, one after the other.
pub fn go<K: Ports, G: Gate>(ends: &mut Ends<K, G>, rows: &[Row]) -> bool {
    for row in rows {
        if !goes(ends, *row) {
            return false;
        }
    }
    true
}
