//! The submission ring: slots, positions and calls.

ghost use Rattle.std.specs.Prelude.{◌≡◌, ◌≢◌, ℕ, ◌%◌, ◌<◌, ◌≤◌, length, true, IfOk, IsOk, is_some, ◌-◌};
ghost use Rattle.uring_entry.specs.Setup.{Setup};
ghost use Rattle.uring_entry.specs.IndexWords.{word_of};
ghost use Rattle.uring_entry.specs.Submission.{Submission, no_submission, staged, taken, pending, dropped, is_busy, with_published, with_head_loaded, with_stopped};
ghost use Rattle.uring_rings.specs.Sq.{ShowsSubmission, IsOrderedSubmission};
ghost use Rattle.uring_rings.specs.SqAnswers.{fill_answer, after_fill, index_answer, after_index, begin_answer, after_begin, take_answer, after_take, end_answer, after_end};

use crate::answers::{BeginAnswer, EndAnswer, FillAnswer, IndexAnswer, TakeAnswer, Taken};
use crate::index::Index;
use std::alloc::{AllocError, Global};
use std::marker::Model;
use uring_entry::{Setup, Sqe};
use uring_memory::Memory;

/// The submission ring: an array of index words that name slots of a table of entries, as in io_uring(7), Submitting I/O requests. The application fills slots, stages words and stores the tail; the dispatcher takes positions in calls and stores the head.
///
/// No calls but `new` and `new_in` take memory. A refusal changes nothing.
#[derive(Drop)]
pub struct Sq {
    size: u32,
    // One past the last staged position. Not yet visible to the dispatcher: see `published`.
    tail: Index,
    // The tail as the application last stored it.
    published: Index,
    head: Index,
    // The head as the application last loaded it.
    seen_head: Index,
    dropped: u32,
    call: Option<OpenCall>,
    table: Vec<Sqe>,
    // The words that name slots of the table.
    array: Vec<u32>,
}

/// How far the open submission call has come.
#[derive(Clone, Copy)]
pub struct OpenCall {
    /// The positions that it takes: once it is stopped, those that it took.
    pub count: u32,

    /// Those of them that were taken.
    pub taken: u32,

    /// Those of the taken ones that had an entry.
    pub accepted: u32,
}

impl Model for Sq {
    ghost use Rattle.uring_rings.specs.Sq.{Sq, IsSq};

    ghost Value = { Sq };

    ghost view = { λ q. record {
      size = q.size;
      tail = q.tail.0;
      published = q.published.0;
      head = q.head.0;
      seen_head = q.seen_head.0;
      dropped = q.dropped;
      call = q.call;
      table = q.table.items;
      array = q.array.items;
    } };

    ghost invariant = { λ q. IsSq q.size q.table.items q.array.items q.call };
}

impl Sq {
    /// An empty ring of the set-up's size, whose tail and head begin at the set-up's word. Every slot holds the zero entry: our own rule.
    ///
    /// An error is a refused allocation.
    pub fn new(alloc: Global, setup: &Setup) -> Result<Sq, AllocError>
        ensures { IfOk result (λ q. ShowsSubmission setup.now q no_submission) }
    {
        Sq::new_in(&alloc, alloc, setup)
    }

    /// As `new`, by this memory. If it grants as many elements as the ring's size, there is no error.
    pub fn new_in<M: Memory>(memory: &M, alloc: Global, setup: &Setup) -> Result<Sq, AllocError>
        ensures shows { IfOk result (λ q. ShowsSubmission setup.now q no_submission) }
        ensures granted { (n : ℕ) → M.grants memory.now n → setup.now.sq ≤ n → IsOk result }
    {
        let size = setup.sq();
        let start = Index(setup.start());
        let table = memory.filled(alloc, Sqe::from_words([0; 16]), size as usize)?;
        let array = memory.filled(alloc, 0, size as usize)?;
        Ok(Sq {
            size,
            tail: start,
            published: start,
            head: start,
            seen_head: start,
            dropped: 0,
            call: None,
            table,
            array,
        })
    }

    /// Writes an entry to a slot of the table.
    ///
    /// Refused with `NoSlot` if the slot isn't below the ring's size, else with `Busy` if a published position names it that isn't below the head last loaded. Our own rule: so no slot changes under a position, and the table may be read at `take`.
    pub fn fill(&mut self, slot: u32, entry: Sqe) -> FillAnswer
        ensures answer { (g : Setup) (l : Submission) → ShowsSubmission g self.old l →
            result ≡ fill_answer g.sq l slot }
        ensures shows { (g : Setup) (l : Submission) → ShowsSubmission g self.old l →
            ShowsSubmission g self.new (after_fill l slot entry result) }
        ensures refused { result ≢ FillAnswer.Filled → self.new ≡ self.old }
    {
        if slot >= self.size {
            return FillAnswer::NoSlot;
        }
        if self.is_busy(slot) {
            return FillAnswer::Busy;
        }
        self.table[slot as usize] = entry;
        FillAnswer::Filled
    }

    /// Stages a word at the next position, whatever the word: one that isn't below the ring's size names no slot. io_uring(7), Submitting I/O requests.
    ///
    /// Refused with `Full` if the positions staged and not below the head last loaded are as many as the ring's size: our own rule.
    pub fn index(&mut self, word: u32) -> IndexAnswer
        ensures answer { (g : Setup) (l : Submission) → ShowsSubmission g self.old l →
            result ≡ index_answer g.sq l }
        ensures shows { (g : Setup) (l : Submission) → ShowsSubmission g self.old l →
            ShowsSubmission g self.new (after_index l word result) }
        ensures refused { result ≢ IndexAnswer.Staged → self.new ≡ self.old }
    {
        if self.tail.distance(self.seen_head) == self.size {
            return IndexAnswer::Full;
        }
        let cell = self.cell(self.tail);
        self.array[cell] = word;
        self.tail = self.tail.after(1);
        IndexAnswer::Staged
    }

    /// Publishes every staged position, and returns the tail's word. io_uring(7), Submitting I/O requests. A position's entry is what its slot holds now; a slot that two positions name is copied for each: our own rule.
    pub fn store_tail(&mut self) -> u32
        ensures answer { (g : Setup) (l : Submission) → ShowsSubmission g self.old l →
            result ≡ word_of g.start (staged l) }
        ensures shows { (g : Setup) (l : Submission) → ShowsSubmission g self.old l →
            ShowsSubmission g self.new (with_published g.sq l) }
    {
        self.published = self.tail;
        self.published.0
    }

    /// The application loads the head: returns its word. io_uring_setup(2), on head and tail; that `end` alone moves it is our own rule.
    pub fn load_head(&mut self) -> u32
        ensures answer { (g : Setup) (l : Submission) → ShowsSubmission g self.old l →
            result ≡ word_of g.start (taken l) }
        ensures shows { (g : Setup) (l : Submission) → ShowsSubmission g self.old l →
            ShowsSubmission g self.new (with_head_loaded l) }
    {
        self.seen_head = self.head;
        self.seen_head.0
    }

    /// The positions published and not taken by a closed call: 0 to the ring's size.
    pub fn pending(&self) -> u32
        ensures value { (g : Setup) (l : Submission) → ShowsSubmission g self.now l
            → result ≡ pending l }
        ensures ordered { (g : Setup) (l : Submission) → ShowsSubmission g self.now l
            → IsOrderedSubmission g.sq l }
    {
        self.published.distance(self.head)
    }

    /// The positions staged, published or not, and not taken by a closed call: 0 to the ring's size.
    pub fn waiting(&self) -> u32
        ensures { (g : Setup) (l : Submission) → ShowsSubmission g self.now l
            → result ≡ staged l - taken l }
    {
        self.tail.distance(self.head)
    }

    /// How many positions were dropped since the ring was made, modulo 2^32: those of closed calls whose word names no slot. io_uring_setup(2), on `dropped`.
    pub fn dropped(&self) -> u32
        ensures { (g : Setup) (l : Submission) → ShowsSubmission g self.now l → result ≡ dropped l }
    {
        self.dropped
    }

    /// Whether a call is open.
    pub fn in_call(&self) -> bool
        ensures { (g : Setup) (l : Submission) → ShowsSubmission g self.now l
            → result ≡ is_some l.call }
    {
        self.call.is_some()
    }

    /// Opens a call of `n` positions, or of those pending if they are fewer, and returns how many it takes. io_uring_enter(2), `to_submit` and RETURN VALUE.
    ///
    /// Refused with `InCall` if a call is open: our own rule.
    pub fn begin(&mut self, n: u32) -> BeginAnswer
        ensures answer { (g : Setup) (l : Submission) → ShowsSubmission g self.old l
            → result ≡ begin_answer l n }
        ensures shows { (g : Setup) (l : Submission) → ShowsSubmission g self.old l →
            ShowsSubmission g self.new (after_begin l n result) }
        ensures refused { result ≡ BeginAnswer.InCall → self.new ≡ self.old }
    {
        if self.in_call() {
            return BeginAnswer::InCall;
        }
        let count = n.min(self.pending());
        self.call = Some(OpenCall {
            count,
            taken: 0,
            accepted: 0,
        });
        BeginAnswer::Call(count)
    }

    /// Copies the entry of the open call's next position, or returns `Dropped` if its word names no slot. The call goes on after such a word: our own rule.
    ///
    /// Refused with `NoCall` if no call is open, and with `NoMore` if all positions of the open call are taken.
    pub fn take(&mut self) -> TakeAnswer
        ensures answer { (g : Setup) (l : Submission) → ShowsSubmission g self.old l
            → result ≡ take_answer l }
        ensures shows { (g : Setup) (l : Submission) → ShowsSubmission g self.old l →
            ShowsSubmission g self.new (after_take l result) }
        ensures no_call { result ≡ TakeAnswer.NoCall → self.new ≡ self.old }
        ensures no_more { result ≡ TakeAnswer.NoMore → self.new ≡ self.old }
    {
        let Some(call) = self.call else {
            return TakeAnswer::NoCall;
        };
        if call.taken == call.count {
            return TakeAnswer::NoMore;
        }
        let cell = self.cell(self.head.after(call.taken));
        let word = self.array[cell];
        let taken = call.taken + 1;
        if word >= self.size {
            self.call = Some(OpenCall { taken, ..call });
            return TakeAnswer::Dropped;
        }
        let accepted = call.accepted + 1;
        self.call = Some(OpenCall {
            taken,
            accepted,
            ..call
        });
        TakeAnswer::Entry(self.table[word as usize])
    }

    /// Stops the open call: it takes no further position, and those that are left stay published for later calls. Without an open call nothing changes. io_uring_setup(2), IORING_SETUP_SUBMIT_ALL: what a ring without that flag does; when to stop is the caller's to know, who prepares entries.
    pub fn stop(&mut self)
        ensures shows { (g : Setup) (l : Submission) → ShowsSubmission g self.old l →
            ShowsSubmission g self.new (with_stopped true l) }
    {
        if let Some(call) = self.call {
            self.call = Some(OpenCall {
                count: call.taken,
                ..call
            });
        }
    }

    /// Closes the open call: the head moves past its positions, its entries are accepted, and its dropped words are counted. Before that an entry that was taken isn't accepted: our own rule.
    ///
    /// Refused with `NoCall` if no call is open, and with `NotAll` if positions of the open call remain.
    pub fn end(&mut self) -> EndAnswer
        ensures answer { (g : Setup) (l : Submission) → ShowsSubmission g self.old l
            → result ≡ end_answer g l }
        ensures shows { (g : Setup) (l : Submission) → ShowsSubmission g self.old l →
            ShowsSubmission g self.new (after_end l result) }
        ensures no_call { result ≡ EndAnswer.NoCall → self.new ≡ self.old }
        ensures not_all { result ≡ EndAnswer.NotAll → self.new ≡ self.old }
    {
        let Some(call) = self.call else {
            return EndAnswer::NoCall;
        };
        if call.taken < call.count {
            return EndAnswer::NotAll;
        }
        self.call = None;
        self.head = self.head.after(call.count);
        self.dropped = self.dropped.wrapping_add(call.count - call.accepted);
        EndAnswer::Taken(Taken {
            accepted: call.accepted,
            dropped: self.dropped,
            head: self.head.0,
        })
    }

    /// Whether a published position at or after the head last loaded names the slot.
    fn is_busy(&self, slot: u32) -> bool
        ensures { (g : Setup) (l : Submission) → ShowsSubmission g self.now l
            → result ≡ is_busy l slot }
    {
        let count = self.published.distance(self.seen_head);
        for k in 0..count {
            let cell = self.cell(self.seen_head.after(k));
            if self.array[cell] == slot {
                return true;
            }
        }
        false
    }

    /// The cell of a position's word.
    fn cell(&self, index: Index) -> usize
        ensures value { result ≡ index.0 % self.now.size }
        ensures within { result < self.now.size }
        ensures cells { length self.now.array ≡ self.now.size }
    {
        index.cell(self.size - 1)
    }
}
