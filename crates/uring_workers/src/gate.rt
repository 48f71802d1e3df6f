//! What a worker passes before it carries out a job.
ghost use Rattle.std.specs.Prelude.{◌≡◌, ℕ, ◌+◌, ◌%◌, ◌^◌, true, Some, None};

use uring_files::Files;

/// A gate before each job of a worker. A gate that waits holds its worker up, and the requests that were sent to it; no other worker's.
pub trait Gate: Drop {
    ghost use Rattle.std.specs.Prelude.{◌≡◌, ℕ, Bool, true, List};
    ghost use Rattle.uring_files.specs.Contents.{FileContents};

    // Whether the job of the request of this number passes, with these files. A worker learns it from `pass` alone.
    ghost passes: { Self → ℕ → List FileContents → Bool };

    /// Lets the job of the request of this number pass, sooner or later. The files are the worker's, before the job is carried out.
    fn pass(&self, number: u64, files: &Files)
        ensures { passes self.now number files.now ≡ true };
}

/// A gate that lets each job pass at once.
#[derive(Clone, Copy)]
pub struct Open;

impl Gate for Open {
    ghost use Rattle.std.specs.Prelude.{true};

    ghost passes = { λ _ _ _. true };

    fn pass(&self, _number: u64, _files: &Files) {}
}

/// A worker's gate, and how it was passed.
#[derive(Drop)]
pub(crate) struct CountedGate<G: Gate> {
    gate: G,

    /// How often it was passed, modulo 2^64.
    pub(crate) passed: u64,

    /// The number that it was passed with last.
    pub(crate) last_passed: Option<u64>,
}

impl<G: Gate> CountedGate<G> {
    /// A gate that wasn't passed yet.
    pub(crate) fn new(gate: G) -> CountedGate<G>
        ensures passed { result.passed ≡ 0 }
        ensures last { result.last_passed ≡ None }
    {
        CountedGate {
            gate,
            passed: 0,
            last_passed: None,
        }
    }

    /// Passes the gate, once, with this number and these files.
    pub(crate) fn pass(&mut self, number: u64, files: &Files)
        ensures passes { G.passes self.old.gate number files.now ≡ true }
        ensures counts { self.new
            ≡ record self.old { passed = (self.old.passed + 1) % 2 ^ 64; last_passed = Some number } }
    {
        self.gate.pass(number, files);
        self.passed = self.passed.wrapping_add(1);
        self.last_passed = Some(number);
    }
}
