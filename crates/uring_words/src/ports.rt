//! The two ports over shared words: submissions go through one table, completions through another.
ghost use Rattle.std.specs.Prelude.{◌≡◌, ℕ, ◌≤◌, false, [], ◌∷◌, ◌++◌, length, Some, IfOk, IfErr, IsOk, OnOk};
ghost use Rattle.uring_ports.specs.Dropped.{WereHad};
ghost use Rattle.uring_ports.specs.Ports.{nothing_put, sizes_of, LeavesItems, LeavesCompletions};
ghost use Rattle.uring_words.specs.Completion.Layout.{word_count as cq_word_count};
ghost use Rattle.uring_words.specs.Submission.Layout.{word_count};

use crate::completion::reader::CompletionReader;
use crate::completion::writer::CompletionWriter;
use crate::memory::TableMemory;
use crate::sides::Shape;
use crate::submission::reader::CallReader;
use crate::submission::writer::CallWriter;
use crate::{completion, submission};
use std::alloc::{AllocError, Global};
use std::marker::Model;
use uring_entry::{Cqe, Setup};
use uring_memory::Memory;
use uring_ports::{AppPort, Item, KernelPort, Pulled, Rests};

/// The application's port over shared words.
#[derive(Drop)]
pub struct AppWords {
    calls: CallWriter,
    completions: CompletionReader,
}

impl Model for AppWords {
    ghost use Rattle.uring_words.specs.PortViews.{AppWords};

    ghost Value = { AppWords };

    ghost use Rattle.uring_words.specs.PortViews.{app_words};
    ghost use Rattle.uring_words.specs.Submission.Ends.{WriterRests};

    ghost view = { λ p. app_words p.calls p.completions };

    ghost invariant = { λ p. WriterRests p.calls.knows.app };
}

/// The dispatcher's port over shared words.
#[derive(Drop)]
pub struct KernelWords {
    calls: CallReader,
    // Whether the close mark was pulled.
    closed: bool,
    completions: CompletionWriter,
}

impl Model for KernelWords {
    ghost use Rattle.uring_words.specs.PortViews.{KernelWords};

    ghost Value = { KernelWords };

    ghost use Rattle.std.specs.Prelude.{◌≡◌};
    ghost use Rattle.uring_words.specs.PortViews.{kernel_words};
    ghost use Rattle.uring_words.specs.Submission.Calls.{has_close_mark};
    ghost use Rattle.uring_words.specs.Submission.Ends.{ReaderRests};

    ghost view = { λ p. kernel_words p.calls p.completions };

    ghost invariant = { λ p. ReaderRests p.calls.knows.kernel
        × (p.closed ≡ has_close_mark p.calls.knows.kernel.copied) };
}

/// The two ports of a new pair, with the sizes of this set-up's rings. `AllocError`: out of memory.
pub fn word_ports(alloc: Global, setup: &Setup) -> Result<(AppWords, KernelWords), AllocError>
    ensures pair { IfOk result (λ ports. ports.1.pairing ≡ ports.0.pairing) }
    ensures app { IfOk result
        (λ ports. (ports.0.sizes ≡ sizes_of setup.now) × (ports.0.put ≡ nothing_put)
        × (ports.0.got ≡ []) × (ports.0.dropped ≡ [])) }
    ensures kernel { IfOk result
        (λ ports. (ports.1.sizes ≡ sizes_of setup.now) × (ports.1.pulled ≡ nothing_put)
        × (ports.1.delivered ≡ []) × (ports.1.free ≡ setup.now.cq) × (ports.1.dropped ≡ [])) }
    // All room is seen, and nothing else.
    ensures seen { IfOk result
        (λ ports. (ports.0.saw_room.places ≡ setup.now.sq)
        × (ports.0.saw_completions.waiting ≡ []) × (ports.1.saw_calls.waits ≡ false)) }
{
    word_ports_in(&alloc, alloc, setup)
}

/// As `word_ports`, by this memory. If it grants as many elements as each table has words, there is no error.
pub fn word_ports_in<M: TableMemory>(
    memory: &M,
    alloc: Global,
    setup: &Setup,
) -> Result<(AppWords, KernelWords), AllocError>
    ensures pair { IfOk result (λ ports. ports.1.pairing ≡ ports.0.pairing) }
    ensures app { IfOk result
        (λ ports. (ports.0.sizes ≡ sizes_of setup.now) × (ports.0.put ≡ nothing_put)
        × (ports.0.got ≡ []) × (ports.0.dropped ≡ [])) }
    ensures kernel { IfOk result
        (λ ports. (ports.1.sizes ≡ sizes_of setup.now) × (ports.1.pulled ≡ nothing_put)
        × (ports.1.delivered ≡ []) × (ports.1.free ≡ setup.now.cq) × (ports.1.dropped ≡ [])) }
    // All room is seen, and nothing else.
    ensures seen { IfOk result
        (λ ports. (ports.0.saw_room.places ≡ setup.now.sq)
        × (ports.0.saw_completions.waiting ≡ []) × (ports.1.saw_calls.waits ≡ false)) }
    ensures granted { (n : ℕ) → M.grants memory.now n → word_count setup.now.sq ≤ n
        → cq_word_count setup.now.cq ≤ n → IsOk result }
{
    let start = setup.start();
    let calls = Shape {
        start,
        size: setup.sq(),
    };
    let completions = Shape {
        start,
        size: setup.cq(),
    };
    let (call_writer, call_reader) = submission::ends::new_ends(memory, alloc, calls)?;
    let (reader, writer) = completion::ends::new_ends(memory, alloc, completions)?;
    let app = AppWords {
        calls: call_writer,
        completions: reader,
    };
    let kernel = KernelWords {
        calls: call_reader,
        closed: false,
        completions: writer,
    };
    Ok((app, kernel))
}

impl AppWords {
    /// Loads the dropped word: one that the dispatcher stored, or the 0 before them, never older than the one loaded before.
    pub fn dropped(&mut self) -> u32
        ensures { self.new ≡ record self.old { dropped = self.old.dropped ++ result ∷ [] } }
    {
        self.completions.load_dropped()
    }
}

impl KernelWords {
    /// Ends both ports of a pair, and hands out what they still held.
    ///
    /// `Err` says that the system is out of memory, which is asked for first: both ports come back unchanged.
    pub fn settle_words(
        self,
        alloc: Global,
        app: AppWords,
    ) -> Result<Rests, (AppWords, KernelWords)>
        requires { self.pairing ≡ app.pairing }
        ensures items { IfOk result (λ rests. LeavesItems app.put self.pulled rests.unsent.items) }
        ensures completions { IfOk result
            (λ rests. LeavesCompletions self.delivered app.got rests.undelivered.items) }

        // The dropped words that the application loaded are, in order, words that the dispatcher stored, or the 0 before them.
        ensures dropped { OnOk result (WereHad (0 ∷ self.dropped) app.dropped) }
        ensures unchanged { IfErr result (λ ports. (ports.0 ≡ app) × (ports.1 ≡ self)) }
    {
        self.settle_words_in(&alloc, alloc, app)
    }

    /// As `settle_words`, by this memory. If it grants as many elements as each ring has places, the ports are ended.
    pub fn settle_words_in<M: Memory>(
        self,
        memory: &M,
        alloc: Global,
        app: AppWords,
    ) -> Result<Rests, (AppWords, KernelWords)>
        requires { self.pairing ≡ app.pairing }
        ensures items { IfOk result (λ rests. LeavesItems app.put self.pulled rests.unsent.items) }
        ensures completions { IfOk result
            (λ rests. LeavesCompletions self.delivered app.got rests.undelivered.items) }

        // The dropped words that the application loaded are, in order, words that the dispatcher stored, or the 0 before them.
        ensures dropped { OnOk result (WereHad (0 ∷ self.dropped) app.dropped) }
        ensures unchanged { IfErr result (λ ports. (ports.0 ≡ app) × (ports.1 ≡ self)) }
        ensures granted { (n : ℕ) → M.grants memory.now n → self.sizes.sq ≤ n
            → app.sizes.cq ≤ n → IsOk result }
    {
        let Ok(mut unsent) = memory.list(alloc, self.calls.size() as usize) else {
            return Err((app, self));
        };
        let Ok(mut undelivered) = memory.list(alloc, app.completions.size() as usize) else {
            return Err((app, self));
        };
        let KernelWords {
            calls,
            closed: _,
            completions: writer,
        } = self;
        let AppWords {
            calls: call_writer,
            completions,
        } = app;
        calls.take_unsent(call_writer, &mut unsent);
        completions.take_undelivered(writer, &mut undelivered);
        Ok(Rests {
            unsent,
            undelivered,
        })
    }
}

impl AppPort for AppWords {
    ghost pairing = { λ p. p.pairing };

    ghost sizes = { λ p. p.sizes };

    ghost put = { λ p. p.put };

    ghost got = { λ p. p.got };

    ghost saw_room = { λ p. p.saw_room };

    ghost saw_completions = { λ p. p.saw_completions };

    ghost dropped = { λ p. Some p.dropped };

    fn put(&mut self, items: &[Item]) -> bool {
        self.calls.put_call(items)
    }

    fn close(&mut self) -> bool {
        self.calls.put_close()
    }

    fn get(&mut self) -> Option<Cqe> {
        self.completions.get()
    }

    fn load_dropped(&mut self) -> Option<u32> {
        Some(self.dropped())
    }
}

impl KernelPort for KernelWords {
    type App = AppWords;

    ghost pairing = { λ p. p.pairing };

    ghost sizes = { λ p. p.sizes };

    ghost pulled = { λ p. p.pulled };

    ghost delivered = { λ p. p.delivered };

    ghost saw_calls = { λ p. p.saw_calls };

    ghost free = { λ p. p.free };

    ghost room_looks = { λ p. Some p.room_looks };

    ghost dropped = { λ p. Some p.dropped };

    fn pull(&mut self, items: &mut Vec<Item>) -> Pulled {
        if self.closed {
            items.clear();
            return Pulled::Nothing;
        }
        let pulled = self.calls.pull(items);
        self.closed = pulled == Pulled::Close;
        pulled
    }

    fn room(&mut self) -> usize {
        self.completions.room()
    }

    fn deliver(&mut self, completion: Cqe) {
        self.completions.put(completion);
    }

    fn store_dropped(&mut self, word: u32) {
        self.completions.store_dropped(word);
    }

    fn settle_in<M: Memory>(
        self,
        memory: &M,
        alloc: Global,
        app: AppWords,
    ) -> Result<Rests, (AppWords, KernelWords)> {
        self.settle_words_in(memory, alloc, app)
    }
}
