//! The answers to steps, and whether two are the same.

ghost use Rattle.std.specs.Prelude.{◌≡◌, ◌↔◌, IsTrue};
ghost use Rattle.uring_core.specs.declared.answer.Answer.TheVariants as answer;

use uring_entry::{Cqe, Sqe};

/// The answer to a step. The refusals are our own rule, but for `Again`, and so is their order: `NoSlot` before `Busy`; `Closed`, `InCall`, `Spent`, `Again`; `NoCall` before `NoMore` and `NotAll`; `Unknown`, `Running`, `NotReady`. A refusal changes nothing.
#[derive(Clone, Copy, Debug, PartialEq, Eq)]
pub enum Answer {
    /// To Fill: the slot holds the entry.
    Filled,

    /// To Fill: the slot isn't below the submission ring's size.
    NoSlot,

    /// To Fill: a published position that the application doesn't know to be taken names the slot.
    Busy,

    /// To Index: the word is staged.
    Staged,

    /// To Index: as many positions as the ring has entries are staged beyond the head last loaded.
    Full,

    /// To StoreTail and LoadCqTail: the tail as an index word, any 32 bits.
    Tail(u32),

    /// To LoadHead and StoreCqHead: the head as an index word, any 32 bits.
    Head(u32),

    /// To Begin: a call of this many positions is open, 0 to 4,096. io_uring_enter(2), to_submit.
    Call(u32),

    /// To Begin: the ring is closed.
    Closed,

    /// To Begin and Close: a call is open.
    InCall,

    /// To Begin: the requests accepted so far and the positions of this call are more than 2^63 - 1.
    Spent,

    /// To Begin: memory was refused, and nothing is consumed. io_uring_enter(2), ERRORS, EAGAIN.
    Again,

    /// To Take: a copy of the entry that the position names.
    Entry(Sqe),

    /// To Take: the position's word names no slot, and is dropped. io_uring_setup(2), on `dropped`.
    Dropped,

    /// To Take: every position of the call is taken.
    NoMore,

    /// To Take and End: no call is open.
    NoCall,

    /// To End: how many entries the call accepted (0 to 4,096), how many words the ring has dropped so far (modulo 2^32), and the head as an index word.
    Taken {
        accepted: u32,
        dropped: u32,
        head: u32,
    },

    /// To End: positions of the call are left.
    NotAll,

    /// To Issue: the request runs.
    Run,

    /// To Issue and Finish: the request ended with this result and these bytes. After an Issue the result is -22, -125 or that of a cancel, and the bytes are zeros; after a Finish they are what its operation gave: on files of a machine's own, or as the caller of a core says.
    Ended {
        res: i32,
        bytes: [u8; 64],
    },

    /// To Issue: the request waits for earlier ones.
    NotReady,

    /// To Issue: the request runs already.
    Running,

    /// To Issue: no such request is outstanding: none of this number was accepted, or it has ended.
    Unknown,

    /// To Finish: the request isn't running.
    NotRunning,

    /// To Flush: how many completions moved from the overflow list into the ring, 0 to 8,192.
    Moved(u64),

    /// To Reap: the next completion.
    Reaped(Cqe),

    /// To Reap: every completion that the tail last loaded shows was reaped. To Next: no request can be issued.
    Nothing,

    /// To Close: the ring is closed, now or before.
    Shut,

    /// To Next: the least request that can be issued.
    Next(u64),
}

impl Answer {
    /// The end of a request with this result and these bytes.
    pub fn ended(res: i32, bytes: [u8; 64]) -> Answer
        ensures { result ≡ answer.Ended res bytes }
    {
        Answer::Ended { res, bytes }
    }
}

/// Whether two answers are the same.
pub fn same_answer(a: &Answer, b: &Answer) -> bool
    ensures { IsTrue result ↔ (a.now ≡ b.now) }
{
    *a == *b
}
