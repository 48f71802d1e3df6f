//! Which polls of a pipe are told of what was written to it and is gone. poll(2), and what Linux 6.18 was seen to do: a poll is told of a write in the moment of the write, also if another reads what was written at once.

ghost use Rattle.std.specs.Prelude.{◌≡◌};
ghost use Rattle.uring_enter.specs.Waiting.PipePolls as spec;

/// A request that runs, as far as it says whether it is told of a write.
#[repr(C)]
#[derive(Clone, Copy, Drop)]
pub struct PipePoll {
    /// By what number writes to its pipe are told. 0: it has none.
    pub watch: u32,

    /// What a poll waits for, as poll(2) has it.
    pub events: u32,

    pub is_poll: bool,

    /// Its descriptor is a pipe's.
    pub is_of_pipe: bool,

    /// A cancel has found it.
    pub is_cancelled: bool,
}

impl PipePoll {
    /// Whether it is to be told of writes: it is a poll for what a pipe has to be read, and no cancel has found it.
    pub fn awaits(&self) -> bool
        ensures { result ≡ spec.awaits self.now }
    {
        self.is_poll && self.is_of_pipe && !self.is_cancelled && self.events & 65 != 0
    }

    /// Whether it is to be told of a write by this number, where the pipe has something to be read or nothing. What is there it finds by itself.
    pub fn is_told(&self, watch: u32, is_there: bool) -> bool
        ensures { result ≡ spec.is_told self.now watch is_there }
    {
        self.is_of_write(watch) && !is_there
    }

    /// Whether it awaits writes by this number.
    pub fn is_of_write(&self, watch: u32) -> bool
        ensures { result ≡ spec.is_of_write self.now watch }
    {
        self.awaits() && self.watch == watch && watch != 0
    }
}
