//! What follows from the definitions alone: each law is the contract of a function that does nothing.

ghost use Rattle.uring_entry.specs.Layout.{WordsGiveBack, WordsDetermine, WordsAreKept};
ghost use Rattle.uring_entry.specs.IndexWords.{WordTellsCount};
ghost use Rattle.uring_entry.specs.Numbers.{AreErrorNumbers, AreFlagBits, AreLimits};
ghost use Rattle.uring_entry.specs.Preparation.{AreOperationCodes};

/// The error numbers, operation codes and flag bits are those of Linux. A submission ring has at most 4,096 entries, a completion ring 8,192, and there are at most 64 files: our own rule.
pub fn numbers_of_linux()
    ensures errors { AreErrorNumbers }
    ensures operations { AreOperationCodes }
    ensures flags { AreFlagBits }
    ensures limits { AreLimits }
{}

/// A completion and its words determine each other, and ten words of 64 bits are, but for their flags, those of the completion that they hold.
pub fn completions_have_their_words()
    ensures back { WordsGiveBack }
    ensures one { WordsDetermine }
    ensures kept { WordsAreKept }
{}

/// An index word tells a count among any 2^32 that follow one another.
pub fn word_tells_count()
    ensures { WordTellsCount }
{}
