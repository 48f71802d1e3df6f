//! One call: what it keeps, and what it does next.

ghost use Rattle.std.specs.Prelude.{◌≡◌, ◌↔◌, List, [], ◌∷◌, false, IsErr, IfOk, OnErr};
ghost use Rattle.uring_enter.specs.Call.Replies.{waits, looks, enough, is_enough};
ghost use Rattle.uring_enter.specs.Call.Due.{due, is_reply_to, is_lazy, unless_ready, go_by, ended, least_over, waiting, looking, leaving, going, stuck, hearing};
ghost use Rattle.uring_enter.specs.Call.After.{IsAfter, Keeps, before_of};

use crate::call::asked::{Asked, Policy};
use crate::call::command::Command;
use crate::call::reply::{Reply, Sight};

/// The reply doesn't answer what the call wants. Nothing changes.
#[derive(Clone, Copy)]
pub struct WrongReply;

/// What the last reply was, as far as what comes next depends on it.
#[derive(Clone, Copy)]
pub enum Before {
    /// There was none.
    Nothing,

    /// A sleep has ended.
    Sleep,

    /// Anything else.
    Other,
}

/// One call of io_uring_enter(2): what it was asked for, and what it keeps of what was replied.
#[derive(Clone, Copy)]
pub struct Enter {
    pub asked: Asked,
    pub wanted: Command,
    /// What the last reply was.
    pub before: Before,
    /// What the submission came to.
    pub submitted: i64,
    /// Whether all entries were taken that were to be submitted.
    pub took_all: bool,
    /// How many timeouts had ended then.
    pub expired: u64,
    /// The time is over after which one completion is enough.
    pub is_least_over: bool,
}

impl Enter {
    /// A call that begins.
    pub fn begin(asked: Asked) -> Enter
        ensures { IsAfter asked [] result }
    {
        Enter {
            asked,
            wanted: Command::Hear(asked.gets),
            before: Before::Nothing,
            submitted: 0,
            took_all: false,
            expired: 0,
            is_least_over: false,
        }
    }

    /// What the call wants.
    pub fn wanted(&self) -> Command
        ensures { (a : Asked) (log : List Reply) → IsAfter a log self.now → result ≡ due a log }
    {
        self.wanted
    }

    /// Takes a reply of what became of it, and returns what the call wants then.
    ///
    /// `WrongReply`: it doesn't answer what the call wants. Nothing changes.
    pub fn next(&mut self, reply: Reply) -> Result<Command, WrongReply>
        ensures due { (a : Asked) (log : List Reply) → IsAfter a log self.old
            → IfOk result (λ command. command ≡ due a (reply ∷ log)) }
        ensures after { (a : Asked) (log : List Reply) → IsAfter a log self.old
            → IfOk result (λ _. IsAfter a (reply ∷ log) self.new) }
        ensures wrong { (a : Asked) (log : List Reply) → IsAfter a log self.old
            → IsErr result ↔ (is_reply_to (due a log) reply ≡ false) }
        ensures kept { OnErr result (self.new ≡ self.old) }
    {
        if !is_reply_to(self.wanted, reply) {
            return Err(WrongReply);
        }
        self.note(reply);
        self.wanted = self.due(reply);
        self.before = kind(reply);
        Ok(self.wanted)
    }

    /// Notes what the submission came to, and that the least time is over.
    fn note(&mut self, reply: Reply)
        ensures keeps { (a : Asked) (log : List Reply) → Keeps a log self.old
            → Keeps a (reply ∷ log) self.new }
        ensures before { self.new.before ≡ self.old.before }
    {
        match reply {
            Reply::Taken(count, sight) => {
                self.submitted = count as i64;
                self.took_all = count == self.asked.to_submit;
                self.expired = sight.expired;
            }
            Reply::NotTaken(number, sight) => {
                self.submitted = -(number as i64);
                self.took_all = false;
                self.expired = sight.expired;
            }
            Reply::LeastOver(_, _) => {
                self.is_least_over = true;
            }
            _ => {}
        }
    }

    /// What comes after a reply, which was noted.
    fn due(&self, reply: Reply) -> Command
        ensures { (a : Asked) (log : List Reply) → Keeps a (reply ∷ log) self.now
            → self.now.before ≡ before_of log → result ≡ due a (reply ∷ log) }
    {
        match reply {
            Reply::Heard(sight) => self.hearing(sight),
            Reply::Taken(_, sight) => self.going(false, sight),
            Reply::NotTaken(_, sight) => self.going(false, sight),
            Reply::WentOn(sight) => self.going(true, sight),
            Reply::Stuck(sight) => self.stuck(sight),
            Reply::Woken => Command::Hear(true),
            Reply::Chosen | Reply::Passed => self.ended(0),
            Reply::TimedOut(sight) => self.ended(unless_ready(sight, 62)),
            Reply::LeastOver(sight, has_limit) => self.least_over(sight, has_limit),
            Reply::Interrupted(sight) => self.ended(unless_ready(sight, 4)),
            Reply::Endless => self.ended(-35),
            Reply::Failed(number) => self.ended(-(number as i64)),
            Reply::WrongHead => self.ended(-77),
        }
    }

    /// The application was heard.
    fn hearing(&self, sight: Sight) -> Command
        ensures { (a : Asked) (log : List Reply) → Keeps a log self.now
            → self.now.before ≡ before_of log → result ≡ hearing a log sight }
    {
        match self.before {
            Before::Nothing => Command::Submit,
            Before::Sleep => self.going(true, sight),
            Before::Other => {
                if self.is_enough(sight) {
                    self.ended(0)
                } else {
                    Command::Sleep
                }
            }
        }
    }

    /// Going on, once the entries are submitted.
    #[inline(always)]
    fn going(&self, has_gone: bool, sight: Sight) -> Command
        ensures { (a : Asked) (log : List Reply) → Keeps a log self.now
            → result ≡ going a log has_gone sight }
    {
        if self.waits() {
            self.waiting(sight)
        } else if self.looks() {
            self.looking(has_gone, sight)
        } else {
            self.leaving()
        }
    }

    /// Going on in a call that waits.
    fn waiting(&self, sight: Sight) -> Command
        ensures { (a : Asked) (log : List Reply) → Keeps a log self.now
            → result ≡ waiting a log sight }
    {
        let may_end = self.is_enough(sight) && self.asked.may_leave;
        if may_end && self.is_lazy() {
            self.ended(0)
        } else {
            go_by(self.asked.policy, may_end)
        }
    }

    /// Going on in a call that looks whether there is a completion.
    fn looking(&self, has_gone: bool, sight: Sight) -> Command
        ensures { (a : Asked) (log : List Reply) → Keeps a log self.now
            → result ≡ looking a log has_gone sight }
    {
        let is_any = 0 < sight.ready;
        if is_any && self.asked.may_leave && self.is_lazy() {
            self.ended(0)
        } else {
            go_by(
                self.asked.policy,
                (has_gone || is_any) && self.asked.may_leave,
            )
        }
    }

    /// Going on in a call that nobody waits for.
    fn leaving(&self) -> Command
        ensures { (a : Asked) (log : List Reply) → Keeps a log self.now
            → result ≡ leaving a log }
    {
        if self.asked.may_leave && self.is_lazy() {
            self.ended(0)
        } else {
            go_by(self.asked.policy, self.asked.may_leave)
        }
    }

    /// Nothing can go on.
    fn stuck(&self, sight: Sight) -> Command
        ensures { (a : Asked) (log : List Reply) → Keeps a log self.now
            → result ≡ stuck a log sight }
    {
        if self.waits() {
            Command::Hear(true)
        } else if self.looks() && sight.ready == 0 {
            Command::PassTime
        } else {
            self.ended(0)
        }
    }

    /// The time is over after which one completion is enough.
    fn least_over(&self, sight: Sight, has_limit: bool) -> Command
        ensures { (a : Asked) (log : List Reply) → Keeps a log self.now
            → result ≡ least_over log sight has_limit }
    {
        if 0 < sight.ready || !has_limit {
            self.ended(unless_ready(sight, 62))
        } else {
            Command::Hear(true)
        }
    }

    /// The end of a call, with what became of its waiting.
    fn ended(&self, outcome: i64) -> Command
        ensures { (a : Asked) (log : List Reply) → Keeps a log self.now
            → result ≡ ended log outcome }
    {
        Command::Return(if self.submitted == 0 {
            outcome
        } else {
            self.submitted
        })
    }

    fn is_lazy(&self) -> bool
        ensures { result ≡ is_lazy self.now.asked.policy }
    {
        match self.asked.policy {
            Policy::Lazy => true,
            _ => false,
        }
    }

    fn waits(&self) -> bool
        ensures { (a : Asked) (log : List Reply) → Keeps a log self.now → result ≡ waits a log }
    {
        self.asked.gets && self.took_all && 0 < self.asked.min_complete
    }

    fn looks(&self) -> bool
        ensures { (a : Asked) (log : List Reply) → Keeps a log self.now → result ≡ looks a log }
    {
        self.asked.gets && self.took_all && self.asked.min_complete == 0
    }

    /// Whether there is enough for a call that waits.
    fn is_enough(&self, sight: Sight) -> bool
        ensures { (a : Asked) (log : List Reply) → Keeps a log self.now
            → result ≡ is_enough a log sight }
    {
        self.enough() <= sight.ready || (sight.expired != self.expired && !sight.is_due)
    }

    /// How many completions are enough for a call that waits.
    fn enough(&self) -> u32
        ensures { (a : Asked) (log : List Reply) → Keeps a log self.now
            → result ≡ enough a log }
    {
        if self.is_least_over {
            1
        } else {
            self.asked.min_complete.min(self.asked.cq)
        }
    }
}

/// Going on; `may_end` says whether the call may end instead.
fn go_by(policy: Policy, may_end: bool) -> Command
    ensures { result ≡ go_by policy may_end }
{
    match policy {
        Policy::InOrder => Command::GoOnFully,
        Policy::Lazy => Command::GoOn(false),
        Policy::ByChoice => Command::GoOn(may_end),
    }
}

/// Whether a reply answers what a call wants.
fn is_reply_to(wanted: Command, reply: Reply) -> bool
    ensures { result ≡ is_reply_to wanted reply }
{
    match wanted {
        Command::Hear(_) => matches!(reply, Reply::Heard(_) | Reply::WrongHead),
        Command::Submit => matches!(reply, Reply::Taken(_, _) | Reply::NotTaken(_, _)),
        Command::GoOn(may_end) => goes(may_end, reply),
        Command::GoOnFully => matches!(reply, Reply::Stuck(_) | Reply::WrongHead),
        Command::Sleep => ends_sleep(reply),
        Command::PassTime => matches!(reply, Reply::Passed),
        Command::Return(_) => false,
    }
}

/// Whether a reply says what became of going on.
fn goes(may_end: bool, reply: Reply) -> bool
    ensures { result ≡ is_reply_to (Command.GoOn may_end) reply }
{
    match reply {
        Reply::WentOn(_) | Reply::Stuck(_) | Reply::WrongHead => true,
        Reply::Chosen => may_end,
        _ => false,
    }
}

/// Whether a reply says how a sleep has ended.
fn ends_sleep(reply: Reply) -> bool
    ensures { result ≡ is_reply_to Command.Sleep reply }
{
    match reply {
        Reply::Woken | Reply::TimedOut(_) | Reply::Interrupted(_) => true,
        Reply::LeastOver(_, _) => true,
        Reply::Endless | Reply::Failed(_) => true,
        _ => false,
    }
}

/// What the last reply was, as far as what comes next depends on it.
fn kind(reply: Reply) -> Before
    ensures { (log : List Reply) → result ≡ before_of (reply ∷ log) }
{
    match reply {
        Reply::Woken | Reply::LeastOver(_, _) => Before::Sleep,
        _ => Before::Other,
    }
}

/// The negative of this error number, unless there is a completion.
fn unless_ready(sight: Sight, number: u32) -> i64
    ensures { result ≡ unless_ready sight number }
{
    if 0 < sight.ready { 0 } else { -(number as i64) }
}
