//! A call of io_uring_enter(2) as words that C can read.
ghost use Rattle.std.specs.Prelude.{◌≡◌, None, Some};
ghost use Rattle.uring_ffi_values.specs.LayerWords.EnterForm as spec;

use uring_enter::{Asked, Before, Command, Enter, Policy, Reply, Sight};

/// What a call is asked for: `struct wulgach_asked` of the header.
#[repr(C)]
#[derive(Clone, Copy, Drop)]
pub struct AskedWords {
    pub to_submit: u32,
    pub min_complete: u32,
    pub cq: u32,
    pub policy: u32,
    pub gets: bool,
    pub may_leave: bool,
    pub has_thread: bool,
}

/// What a call wants: `struct wulgach_command`.
#[repr(C)]
#[derive(Clone, Copy, Drop)]
pub struct CommandWords {
    pub result: i64,
    pub kind: u32,
    pub flag: bool,
}

/// What became of it: `struct wulgach_reply`.
#[repr(C)]
#[derive(Clone, Copy, Drop)]
pub struct ReplyWords {
    pub expired: u64,
    pub kind: u32,
    pub number: u32,
    pub ready: u32,
    pub is_due: bool,
    pub has_limit: bool,
}

/// A call: `struct wulgach_enter`.
#[repr(C)]
#[derive(Clone, Copy, Drop)]
pub struct EnterWords {
    pub asked: AskedWords,
    pub wanted: CommandWords,
    pub submitted: i64,
    pub expired: u64,
    pub before: u32,
    pub took_all: bool,
    pub is_least_over: bool,
}

impl AskedWords {
    /// What is asked for, if there is such a policy.
    pub fn asked(&self) -> Option<Asked>
        ensures { result ≡ spec.asked_of self.now }
    {
        let policy = policy(self.policy)?;
        Some(Asked {
            to_submit: self.to_submit,
            min_complete: self.min_complete,
            cq: self.cq,
            gets: self.gets,
            policy,
            may_leave: self.may_leave,
        })
    }
}

impl AskedWords {
    /// The same of a call on its ring, by what the program goes by.
    pub fn on_ring(&self) -> Option<Asked>
        ensures { result ≡ spec.on_ring_of self.now }
    {
        match self.asked() {
            Some(asked) => Some(asked.on_ring(self.has_thread)),
            None => None,
        }
    }
}

impl CommandWords {
    /// The command of these words, if there is one.
    pub fn command(&self) -> Option<Command>
        ensures { result ≡ spec.command_of self.now }
    {
        match self.kind {
            0 => Some(Command::Hear(self.flag)),
            1 => Some(Command::Submit),
            2 => Some(Command::GoOn(self.flag)),
            3 => Some(Command::GoOnFully),
            4 => Some(Command::Sleep),
            5 => Some(Command::PassTime),
            6 => Some(Command::Return(self.result)),
            _ => None,
        }
    }
}

impl ReplyWords {
    /// The reply, if the words give one.
    pub fn reply(&self) -> Option<Reply>
        ensures { result ≡ spec.reply_of self.now }
    {
        match self.kind {
            0 => Some(Reply::Heard(self.sight())),
            1 => Some(Reply::WrongHead),
            2 => Some(Reply::Taken(self.number, self.sight())),
            3 => Some(Reply::NotTaken(self.number, self.sight())),
            4 => Some(Reply::WentOn(self.sight())),
            5 => Some(Reply::Chosen),
            6 => Some(Reply::Stuck(self.sight())),
            7 => Some(Reply::Woken),
            8 => Some(Reply::TimedOut(self.sight())),
            9 => Some(Reply::Interrupted(self.sight())),
            10 => Some(Reply::Endless),
            11 => Some(Reply::Failed(self.number)),
            12 => Some(Reply::Passed),
            13 => Some(Reply::LeastOver(self.sight(), self.has_limit)),
            _ => None,
        }
    }

    /// What is seen then.
    fn sight(&self) -> Sight
        ensures { result ≡ spec.sight_in self.now }
    {
        Sight {
            ready: self.ready,
            expired: self.expired,
            is_due: self.is_due,
        }
    }
}

impl EnterWords {
    /// The call of these words, if there is one.
    pub fn enter(&self) -> Option<Enter>
        ensures { result ≡ spec.enter_of self.now }
    {
        let asked = self.asked.asked()?;
        let wanted = self.wanted.command()?;
        let before = match self.before {
            0 => Before::Nothing,
            1 => Before::Sleep,
            2 => Before::Other,
            _ => return None,
        };
        Some(Enter {
            asked,
            wanted,
            before,
            submitted: self.submitted,
            took_all: self.took_all,
            is_least_over: self.is_least_over,
            expired: self.expired,
        })
    }
}

/// The words of a call.
pub fn enter_words(enter: Enter) -> EnterWords
    ensures { result ≡ spec.words_of_enter enter }
{
    let asked = AskedWords {
        to_submit: enter.asked.to_submit,
        min_complete: enter.asked.min_complete,
        cq: enter.asked.cq,
        policy: policy_word(enter.asked.policy),
        gets: enter.asked.gets,
        may_leave: enter.asked.may_leave,
        has_thread: false,
    };
    EnterWords {
        asked,
        wanted: command_words(enter.wanted),
        submitted: enter.submitted,
        expired: enter.expired,
        before: match enter.before {
            Before::Nothing => 0,
            Before::Sleep => 1,
            Before::Other => 2,
        },
        took_all: enter.took_all,
        is_least_over: enter.is_least_over,
    }
}

/// The words of a command.
pub fn command_words(command: Command) -> CommandWords
    ensures { result ≡ spec.words_of_command command }
{
    match command {
        Command::Hear(flushes) => wanted(0, flushes, 0),
        Command::Submit => wanted(1, false, 0),
        Command::GoOn(may_end) => wanted(2, may_end, 0),
        Command::GoOnFully => wanted(3, false, 0),
        Command::Sleep => wanted(4, false, 0),
        Command::PassTime => wanted(5, false, 0),
        Command::Return(result) => wanted(6, false, result),
    }
}

fn wanted(kind: u32, flag: bool, value: i64) -> CommandWords
    ensures { result ≡ spec.wanted_in kind flag value }
{
    CommandWords {
        result: value,
        kind,
        flag,
    }
}

/// The policy of a word, if it is one's.
pub fn policy(word: u32) -> Option<Policy>
    ensures { result ≡ spec.policy_of word }
{
    match word {
        0 => Some(Policy::InOrder),
        1 => Some(Policy::Lazy),
        2 => Some(Policy::ByChoice),
        _ => None,
    }
}

/// The word of a policy.
pub fn policy_word(policy: Policy) -> u32
    ensures { result ≡ spec.word_of_policy policy }
{
    match policy {
        Policy::InOrder => 0,
        Policy::Lazy => 1,
        Policy::ByChoice => 2,
    }
}
