//! The rows of each play.

use super::rows::Put::{Bad, Nop, Silent, Sync, Write};
use super::rows::Row;
use super::rows::Row::{
    Close, CloseRefused, Dropped, IsIdle, Job, NoWorker, Reap, Refused, Submit, Turn, TurnAgain,
    Work,
};
use uring_threads::Worked::{Done, Idle};
use uring_threads::{CloseRefusal, SubmitRefusal};

/// A no-op is taken in, carried out by worker 0 and reaped; and the ring is idle once it is closed.
pub const ONE_NO_OP: &[Row] = &[
    Submit(&[Nop(3)]),
    Turn(1, 1, 0, 0),
    Work(1, Idle),
    Work(0, Done(0)),
    Turn(0, 0, 1, 1),
    Reap(Some(3)),
    IsIdle(false),
    Close,
    Turn(0, 0, 0, 0),
    IsIdle(true),
];

/// Seven workers are idle while worker 0 has a no-op and once it has carried it out, and there is no further one.
pub const WITHOUT_A_JOB: &[Row] = &[
    Submit(&[Nop(1)]),
    Turn(1, 1, 0, 0),
    Work(1, Idle),
    Work(2, Idle),
    Work(3, Idle),
    Work(4, Idle),
    Work(5, Idle),
    Work(6, Idle),
    Work(7, Idle),
    NoWorker(8),
    Work(0, Done(0)),
    Work(1, Idle),
    Work(2, Idle),
    Work(3, Idle),
    Work(4, Idle),
    Work(5, Idle),
    Work(6, Idle),
    Work(7, Idle),
    NoWorker(8),
    Work(0, Idle),
];

/// Two calls are taken in, each by a turn: of one no-op, and of three. All four are carried out, delivered by one turn and reaped, and no more.
pub const ROUND: &[Row] = &[
    Submit(&[Nop(1)]),
    Submit(&[Nop(2), Nop(3), Nop(4)]),
    Turn(1, 1, 0, 0),
    Turn(3, 3, 0, 0),
    Job(0),
    Job(0),
    Job(0),
    Job(0),
    Turn(0, 0, 4, 4),
    Reap(Some(1)),
    Reap(Some(2)),
    Reap(Some(3)),
    Reap(Some(4)),
    Reap(None),
];

/// Calls of one to four items, of which each second one names no slot. Ten items go round a ring of four twice and a half, so that the second time calls begin at the other places.
pub const EACH_LENGTH: &[Row] = &[
    Submit(&[Nop(1)]),
    Turn(1, 1, 0, 0),
    Job(0),
    Turn(0, 0, 1, 1),
    Reap(Some(1)),
    Reap(None),
    Submit(&[Nop(2), Bad(4)]),
    Turn(2, 1, 0, 0),
    Job(0),
    Turn(0, 0, 1, 1),
    Reap(Some(2)),
    Reap(None),
    Submit(&[Nop(3), Bad(4), Nop(4)]),
    Turn(3, 2, 0, 0),
    Job(0),
    Job(0),
    Turn(0, 0, 2, 2),
    Reap(Some(3)),
    Reap(Some(4)),
    Reap(None),
    Submit(&[Nop(5), Bad(4), Nop(6), Bad(u32::MAX)]),
    Turn(4, 2, 0, 0),
    Job(0),
    Job(0),
    Turn(0, 0, 2, 2),
    Reap(Some(5)),
    Reap(Some(6)),
    Reap(None),
];

/// One to four completions, delivered at each place of the ring in turn.
pub const EACH_DELIVERY: &[Row] = &[
    Submit(&[Nop(1)]),
    Turn(1, 1, 0, 0),
    Job(0),
    Turn(0, 0, 1, 1),
    Reap(Some(1)),
    Submit(&[Nop(2), Nop(3)]),
    Turn(2, 2, 0, 0),
    Job(0),
    Job(0),
    Turn(0, 0, 2, 2),
    Reap(Some(2)),
    Reap(Some(3)),
    Submit(&[Nop(4), Nop(5), Nop(6)]),
    Turn(3, 3, 0, 0),
    Job(0),
    Job(0),
    Job(0),
    Turn(0, 0, 3, 3),
    Reap(Some(4)),
    Reap(Some(5)),
    Reap(Some(6)),
    Submit(&[Nop(7), Nop(8), Nop(9), Nop(10)]),
    Turn(4, 4, 0, 0),
    Job(0),
    Job(0),
    Job(0),
    Job(0),
    Turn(0, 0, 4, 4),
    Reap(Some(7)),
    Reap(Some(8)),
    Reap(Some(9)),
    Reap(Some(10)),
    Reap(None),
];

/// Each refusal of a submit and of a close, in their order; a place is free again once a turn took a call in.
pub const REFUSALS: &[Row] = &[
    Refused(&[], SubmitRefusal::Empty),
    Refused(
        &[Nop(1), Nop(2), Bad(0), Nop(4), Nop(5)],
        SubmitRefusal::TooLong,
    ),
    Submit(&[Nop(1), Nop(2), Bad(4)]),
    Refused(&[Nop(1), Bad(3)], SubmitRefusal::NotBad),
    Refused(&[Nop(3), Nop(4)], SubmitRefusal::Full),
    Submit(&[Nop(5)]),
    CloseRefused(CloseRefusal::Full),
    Turn(3, 2, 0, 0),
    Close,
    CloseRefused(CloseRefusal::Closed),
    Refused(&[], SubmitRefusal::Closed),
    Refused(&[Nop(6)], SubmitRefusal::Closed),
    Refused(
        &[Nop(6), Nop(7), Nop(8), Nop(9), Nop(10)],
        SubmitRefusal::Closed,
    ),
    Turn(1, 1, 0, 0),
    Job(0),
    Job(0),
    Job(0),
    Turn(0, 0, 3, 3),
    Turn(0, 0, 0, 0),
    IsIdle(true),
];

/// Worker 0 does nothing, and worker 1's sync is delivered; worker 0's comes once it does.
pub const HELD: &[Row] = &[
    Submit(&[Sync(1, 0), Sync(2, 1)]),
    Turn(2, 2, 0, 0),
    Work(1, Done(1)),
    Turn(0, 0, 1, 1),
    Reap(Some(2)),
    Reap(None),
    Work(0, Done(0)),
    Turn(0, 0, 1, 1),
    Reap(Some(1)),
];

/// A turn that takes a call in also takes in the result of the call before it.
pub const BESIDE_A_RESULT: &[Row] = &[
    Submit(&[Nop(1)]),
    Turn(1, 1, 0, 0),
    Job(0),
    Submit(&[Nop(2)]),
    Turn(1, 1, 1, 1),
];

/// Calls are taken in after four completions that fill the ring, with one and then three that wait. Once one of the four is reaped there is room for one.
pub const AFTER_COMPLETIONS: &[Row] = &[
    Submit(&[Nop(1), Nop(2), Nop(3), Nop(4)]),
    Turn(4, 4, 0, 0),
    Job(0),
    Job(0),
    Job(0),
    Job(0),
    Turn(0, 0, 4, 4),
    Submit(&[Nop(1)]),
    Turn(1, 1, 0, 0),
    Job(0),
    Turn(0, 0, 1, 0),
    Submit(&[Nop(1), Nop(2)]),
    Turn(2, 2, 0, 0),
    Job(0),
    Job(0),
    Turn(0, 0, 2, 0),
    Submit(&[Nop(1), Nop(2), Nop(3)]),
    Turn(3, 3, 0, 0),
    Job(0),
    Job(0),
    Job(0),
    Turn(0, 0, 3, 0),
    Reap(Some(1)),
    Turn(0, 0, 0, 1),
    Turn(0, 0, 0, 0),
];

/// The dropped word is seen at first, after a call with one word that names no slot, after the turn that takes it in, and once more; then after a turn that takes in two such words, and after one that takes in nothing.
pub const DROPPED: &[Row] = &[
    Dropped(0),
    Submit(&[Bad(9), Silent(5)]),
    Dropped(0),
    Turn(2, 1, 0, 0),
    Dropped(1),
    Dropped(1),
    Submit(&[Bad(4), Nop(6), Bad(4294967295)]),
    Turn(3, 1, 0, 0),
    Dropped(3),
    Turn(0, 0, 0, 0),
    Dropped(3),
];

/// A full ring looks at the head again: there is room once a turn has popped.
pub const FULL: &[Row] = &[
    Submit(&[Nop(1), Nop(2)]),
    Refused(&[Nop(3)], SubmitRefusal::Full),
    Turn(2, 2, 0, 0),
    Submit(&[Nop(3)]),
];

/// Five no-ops go round, one after the other.
pub const FIVE_ROUNDS: &[Row] = &[
    Submit(&[Nop(1)]),
    Turn(1, 1, 0, 0),
    Work(0, Done(0)),
    Turn(0, 0, 1, 1),
    Reap(Some(1)),
    Submit(&[Nop(2)]),
    Turn(1, 1, 0, 0),
    Work(0, Done(1)),
    Turn(0, 0, 1, 1),
    Reap(Some(2)),
    Submit(&[Nop(3)]),
    Turn(1, 1, 0, 0),
    Work(0, Done(2)),
    Turn(0, 0, 1, 1),
    Reap(Some(3)),
    Submit(&[Nop(4)]),
    Turn(1, 1, 0, 0),
    Work(0, Done(3)),
    Turn(0, 0, 1, 1),
    Reap(Some(4)),
    Submit(&[Nop(5)]),
    Turn(1, 1, 0, 0),
    Work(0, Done(4)),
    Turn(0, 0, 1, 1),
    Reap(Some(5)),
];

/// Two calls that the dispatcher hasn't taken in when the application goes.
pub const TWO_CALLS: &[Row] = &[Submit(&[Nop(1)]), Submit(&[Nop(2), Nop(3)])];

/// A job that is issued when the dispatcher goes.
pub const ISSUED: &[Row] = &[Submit(&[Nop(1)]), Turn(1, 1, 0, 0)];

/// A write that worker 1 has when it goes, and a no-op that worker 0 has.
pub const BOTH_BUSY: &[Row] = &[Submit(&[Write(1, 1, 98), Nop(2)]), Turn(2, 2, 0, 0)];

/// Four no-ops are taken in, carried out, delivered and reaped, each once, if memory is refused at most once to each turn.
pub const FOUR: &[Row] = &[
    Submit(&[Nop(1), Nop(2), Nop(3), Nop(4)]),
    TurnAgain,
    Job(0),
    Job(0),
    Job(0),
    Job(0),
    TurnAgain,
    Reap(Some(1)),
    Reap(Some(2)),
    Reap(Some(3)),
    Reap(Some(4)),
    Reap(None),
];

/// Then one no-op is delivered and not reaped, two are issued of which the worker does the first, and a call stays.
pub const MIDDLE: &[Row] = &[
    Submit(&[Nop(1)]),
    TurnAgain,
    Job(0),
    TurnAgain,
    Submit(&[Nop(2), Nop(3)]),
    TurnAgain,
    Job(0),
    Submit(&[Bad(9), Nop(4)]),
];
