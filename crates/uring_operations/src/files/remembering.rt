//! What is remembered of a descriptor's number: what it was when it was last asked. Our own rules: the application may have closed it since, so nothing rests on that but which call is made first.

ghost use Rattle.std.specs.Prelude.{◌≡◌};
ghost use Rattle.uring_operations.specs.Files.Remembering as spec;
ghost use Rattle.uring_operations.specs.Files.Remembering.{AsksWhatWasAFile, ForgetsStreams};

/// What is remembered of a number.
#[derive(Clone, Copy, Drop)]
pub enum Remembered {
    /// Nothing.
    Nothing,

    /// It was a regular file.
    File,

    /// It was a file that can't be asked not to wait, and is in memory: no call by it waits.
    InMemory,

    /// It was one that can't be asked either, and is elsewhere: a call by it may take long.
    Slow,
}

impl Remembered {
    /// After the number was asked what it is: a regular file, or something else.
    pub fn after_status(self, is_file: bool) -> Remembered
        ensures { result ≡ spec.after_status self is_file }
    {
        match self {
            Remembered::Nothing => {
                if is_file {
                    Remembered::File
                } else {
                    Remembered::Nothing
                }
            }
            other => { if is_file { other } else { Remembered::Nothing } }
        }
    }

    /// Whether the file is asked for its seals after a call by its number that was asked not to wait at once, or wasn't, and came to this.
    pub fn asks_seals(self, is_at_once: bool, res: i32) -> bool
        ensures { result ≡ spec.asks_seals self is_at_once res }
    {
        match self {
            Remembered::File => is_at_once && res == -95,
            _ => false,
        }
    }

    /// After a call by the number that came to this: what has no offsets is no file, and what it was is forgotten.
    pub fn after_call(self, res: i32) -> Remembered
        ensures { result ≡ spec.after_call self res }
    {
        if res == -29 {
            Remembered::Nothing
        } else {
            self
        }
    }

    /// Whether it is asked for them before a call is made that may wait if it isn't in memory any more.
    pub fn was_in_memory(self) -> bool
        ensures { result ≡ spec.was_in_memory self }
    {
        match self {
            Remembered::InMemory => true,
            _ => false,
        }
    }

    /// After it was asked for its seals.
    pub fn after_seals(self, has_seals: bool) -> Remembered
        ensures { result ≡ spec.after_seals self has_seals }
    {
        match self {
            Remembered::File => {
                if has_seals {
                    Remembered::InMemory
                } else {
                    Remembered::Slow
                }
            }
            Remembered::InMemory => {
                if has_seals {
                    Remembered::InMemory
                } else {
                    Remembered::Nothing
                }
            }
            other => other,
        }
    }
}

/// What holds of what is remembered of files.
///
/// - `asks_what_was_a_file`: once it was asked for seals, no call by the number asks for them, until it is another file's.
/// - `forgets_streams`: no call is made first by a number of which a call has shown that it isn't a file's.
pub fn remembering_laws()
    ensures asks_what_was_a_file { AsksWhatWasAFile }
    ensures forgets_streams { ForgetsStreams }
{}
