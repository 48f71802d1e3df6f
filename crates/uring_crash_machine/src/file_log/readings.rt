//! What a log tells: no step, and so it changes nothing.

ghost use Rattle.std.specs.Prelude.{◌≡◌, ℕ, ◌≤◌, true, Some, length, IfOk, IsOk, IfSome};
ghost use Rattle.uring_files.specs.Contents.{max_len};
ghost use Rattle.uring_volume.specs.Images.{IsImage};
ghost use Rattle.uring_volume.specs.Choices.{IsLeftBy, issued, named, has_safe};
ghost use Rattle.uring_volume.specs.Volume.{is_known};
ghost use Rattle.uring_crash_machine.specs.Asked.{is_safe_of};
ghost use Rattle.uring_crash_machine.specs.Logs.{request_of};

use super::FileLog;
use crate::numbering::request_at;
use std::alloc::AllocError;
use uring_memory::Memory;
use uring_volume::Volume;

impl FileLog {
    /// The bytes that a crash leaves of the file, by a choice.
    pub fn crash(&self, choice: &[u64]) -> Result<Vec<u8>, AllocError>
        ensures image { IfOk result (λ now.
            IsImage self.now.volume.unit self.now.volume.first self.now.volume.history now.items) }
        ensures chosen { IfOk result (λ now.
            IsLeftBy self.now.volume.unit self.now.volume.first self.now.volume.history choice.now now.items) }
        ensures short { IfOk result (λ now. length now.items ≤ max_len) }
    {
        self.crash_in(&self.alloc, choice)
    }

    /// As `crash`, by this memory. If it grants whatever is asked for, there is no error.
    pub fn crash_in<M: Memory>(&self, memory: &M, choice: &[u64]) -> Result<Vec<u8>, AllocError>
        ensures image { IfOk result (λ now.
            IsImage self.now.volume.unit self.now.volume.first self.now.volume.history now.items) }
        ensures chosen { IfOk result (λ now.
            IsLeftBy self.now.volume.unit self.now.volume.first self.now.volume.history choice.now now.items) }
        ensures short { IfOk result (λ now. length now.items ≤ max_len) }
        ensures granted { ((k : ℕ) → M.grants memory.now k) → IsOk result }
    {
        self.volume.crash_in(memory, self.alloc, choice)
    }

    /// The file as a volume.
    pub fn volume(&self) -> &Volume
        ensures { result.now ≡ self.now.volume }
    {
        &self.volume
    }

    /// The request of a number on the volume: of each write that is there and each sync that runs. One that a fold has let go may have none any more.
    pub fn request(&self, number: u64) -> Option<u64>
        ensures right { IfSome result (λ n. request_of number self.now.requests ≡ Some n) }
        ensures there { is_known number self.now.volume.history ≡ true → result ≡ request_of number self.now.requests }
    {
        request_at(&self.numbers, number)
    }

    /// How many writes and syncs were begun.
    pub fn count(&self) -> u64
        ensures { result ≡ length self.now.requests }
    {
        self.volume.next() - 1
    }

    /// Whether the write of a number on the volume is safe.
    pub fn is_safe(&self, number: u64) -> bool
        ensures { result ≡ has_safe self.now.volume.history (named number (issued self.now.volume.history)) }
    {
        self.volume.is_safe(number)
    }

    /// Whether the write that a request is is safe: false too if the request is no write of this file, or a fold has let it go.
    #[tactic(auto, using(crate::proofs::LogNumbers::none_safe))]
    pub fn has_safe(&self, n: u64) -> bool
        ensures { result ≡ is_safe_of n self.now }
    {
        match self.number_of(n) {
            Some(number) => self.volume.is_safe(number),
            None => false,
        }
    }
}
