//! What a check makes of lines, one by one.

ghost use Rattle.std.specs.Prelude.{◌≡◌, ◌∷◌, [], true, false, ℕ, List, Bool, IfOk, IsOk, OnOk, string_bytes};
ghost use Rattle.uring_core.specs.Histories.{History};
ghost use Rattle.uring_text.specs.KeptLine.{kept_of};
ghost use Rattle.uring_check.specs.Checking.{FitsBy, rules_of, Looks, LooksAt, LooksBy, IsTold};
ghost use Rattle.uring_check.specs.Findings.{first_fault};
ghost use Rattle.uring_check.specs.Rules.{Rules};
ghost use Rattle.uring_check.specs.Records.{IsRecord, IsNoRecord};

use crate::answer_text::AnswerText;
use crate::ends::Ends;
use crate::follower::Follower;
use crate::judging::judge;
use crate::record_line::split_record;
use crate::setup_line::{Said, said_by_in};
use crate::standing::{StepStanding, note_poster};
use crate::telling::{tell_bad, tell_end, tell_wrong};
use crate::verdict::Verdict;
use std::alloc::{AllocError, Global};
use std::mem;
use uring_machine::{Setup, Step};
use uring_text::{KeptLine, TextMemory, push_text};
use uring_trace::read_step_in;

/// What is told of a first line that is to say a set-up and says none.
const MISSED: &str =
    "line 1: bad line\nwhy: no set-up, wanted: # setup --sq N --cq N --files N --start N, each within its limits, and --stop, --linux or both, or nothing\n";

/// A follower that goes along with the lines, and what they came to so far.
#[derive(Drop)]
pub(crate) struct Checker {
    alloc: Global,
    // Whether the next line is the first one, which may say a set-up.
    awaits: bool,
    // Whether the lines after a wrong one are looked at too.
    is_all: bool,
    follower: Follower,
    // The requests whose completions were posted, in order.
    posters: Vec<u64>,
    // The number of the next line, from 1 on; 2^64 - 1 stands for every greater one.
    number: u64,
    // How many lines were steps with an answer that was called for; 2^64 - 1 stands for every greater number.
    steps: u64,
    verdict: Verdict,
    // Whether no further line is looked at.
    is_over: bool,
    // What is told of the lines.
    pub(crate) report: String,
    told: AnswerText,
}

impl Checker {
    /// A new follower, before the first line. Here and below: if the memory grants whatever is asked for, there is no error.
    pub(crate) fn new<M: TextMemory>(
        memory: &M,
        alloc: Global,
        setup: &Setup,
        is_all: bool,
        ends: Ends,
    ) -> Result<Checker, AllocError>
        ensures looks { IfOk result
            (Looks (record { setup = setup.now; ends = ends }) is_all []) }
        ensures granted { ((n : ℕ) → M.grants memory.now n) → IsOk result }
    {
        Ok(Checker {
            alloc,
            awaits: true,
            is_all,
            follower: Follower::new(memory, alloc, setup, ends)?,
            posters: Vec::new(alloc),
            number: 1,
            steps: 0,
            verdict: Verdict::Lawful,
            is_over: false,
            report: String::new(alloc),
            told: AnswerText::new(alloc),
        })
    }

    /// Takes in the next line. The first one may say a set-up.
    pub(crate) fn take_line<M: TextMemory>(
        &mut self,
        memory: &M,
        line: &KeptLine,
    ) -> Result<(), AllocError>
        ensures looks { OnOk result
            ((g : Rules) (all : Bool) (lines : List (List ℕ)) (text : List ℕ)
            → line.now ≡ kept_of text → Looks g all lines self.old
            → Looks g all (text ∷ lines) self.new) }
        ensures granted { ((n : ℕ) → M.grants memory.now n) → (g : Rules) (all : Bool)
            (lines : List (List ℕ)) → Looks g all lines self.old → IsOk result }
    {
        if !self.awaits {
            return self.take_next(memory, line);
        }
        let said = said_by_in(memory, self.alloc, line)?;
        self.awaits = false;
        match said {
            Said::Nothing => self.take_next(memory, line),
            Said::Says(setup) => {
                self.begin_at(memory, &setup)?;
                self.take_next(memory, line)
            }
            // It is bad, and no line after it is looked at.
            Said::Misses => {
                self.verdict = Verdict::Bad;
                self.is_over = true;
                push_text(memory, &mut self.report, MISSED)
            }
        }
    }

    /// Has a new follower of this set-up in the place of the one at hand.
    fn begin_at<M: TextMemory>(&mut self, memory: &M, setup: &Setup) -> Result<(), AllocError>
        ensures begun { OnOk result
            ((self.new ≡ record self.old { follower = self.new.follower })
            × (rules_of self.new.follower
            ≡ record { setup = setup.now; ends = (rules_of self.old.follower).ends })
            × FitsBy self.new.follower []) }
        ensures granted { ((n : ℕ) → M.grants memory.now n) → IsOk result }
    {
        let begun = Follower::new(memory, self.alloc, setup, self.follower.ends())?;
        mem::replace(&mut self.follower, begun).let_go();
        Ok(())
    }

    /// Takes in a line after which no set-up is said.
    fn take_next<M: TextMemory>(&mut self, memory: &M, line: &KeptLine) -> Result<(), AllocError>
        ensures looks { OnOk result
            ((g : Rules) (all : Bool) (lines : List (List ℕ)) (text : List ℕ)
            → line.now ≡ kept_of text → LooksBy g all lines self.old
            → LooksBy g all (text ∷ lines) self.new × (self.new.awaits ≡ self.old.awaits)) }
        ensures over { OnOk result
            (self.old.is_over ≡ true
            → (self.new.is_over ≡ true) × (self.new.verdict ≡ self.old.verdict) × (self.new.report ≡ self.old.report) × (self.new.awaits ≡ self.old.awaits)) }
        ensures granted { ((n : ℕ) → M.grants memory.now n)
            → (self.old.is_over ≡ false → (h : History) × FitsBy self.old.follower h)
            → IsOk result }
    {
        if !self.is_over {
            self.look(memory, line)?;
        }
        self.number = self.number.saturating_add(1);
        Ok(())
    }

    /// Ends the report, and returns the verdict on all lines.
    pub(crate) fn end<M: TextMemory>(&mut self, memory: &M) -> Result<Verdict, AllocError>
        ensures told { IfOk result
            (λ verdict. (g : Rules) (all : Bool) (lines : List (List ℕ))
            → Looks g all lines self.old → IsTold g all lines verdict (string_bytes self.new.report)) }
        ensures granted { ((n : ℕ) → M.grants memory.now n) → IsOk result }
    {
        tell_end(memory, &mut self.report, self.verdict, self.steps)?;
        Ok(self.verdict)
    }

    /// Lets it go.
    pub(crate) fn let_go(self) {
        self.follower.let_go();
    }

    /// Looks at a line.
    #[tactic(auto, using(std::proofs::lemmas::Result::on_ok_weaker, crate::proofs::Splitting::long_none, crate::proofs::Splitting::unsplit_none, crate::proofs::Splitting::recorded))]
    fn look<M: TextMemory>(&mut self, memory: &M, line: &KeptLine) -> Result<(), AllocError>
        requires { self.old.is_over ≡ false }
        ensures looks { OnOk result
            ((text : List ℕ) → line.now ≡ kept_of text → LooksAt self.old self.new text) }
        ensures granted { ((n : ℕ) → M.grants memory.now n) → (h : History)
            → FitsBy self.old.follower h → IsOk result }
    {
        let Some(bytes) = line.whole() else {
            return self.find_none(memory, line);
        };
        let Some((before, text)) = split_record(bytes) else {
            return self.find_none(memory, line);
        };
        match read_step_in(memory, self.alloc, before)? {
            Some(step) => self.find_record(memory, &step, text, bytes),
            None => self.find_none(memory, line),
        }
    }

    /// Finds a line that is no step with an answer: it is passed over, or bad.
    fn find_none<M: TextMemory>(&mut self, memory: &M, line: &KeptLine) -> Result<(), AllocError>
        requires { self.old.is_over ≡ false }
        ensures looks { OnOk result
            ((text : List ℕ) → line.now ≡ kept_of text → IsNoRecord text
            → LooksAt self.old self.new text) }
        ensures granted { ((n : ℕ) → M.grants memory.now n) → IsOk result }
    {
        if line.is_remark() {
            return Ok(());
        }
        self.fault(Verdict::Bad);
        self.is_over = true;
        tell_bad(memory, self.alloc, &mut self.report, self.number, line)
    }

    /// Finds a line that is this step with this text for its answer.
    fn find_record<M: TextMemory>(
        &mut self,
        memory: &M,
        step: &Step,
        text: &[u8],
        line: &[u8],
    ) -> Result<(), AllocError>
        requires { self.old.is_over ≡ false }
        ensures looks { OnOk result
            (IsRecord line.now step.now text.now → LooksAt self.old self.new line.now) }
        ensures granted { ((n : ℕ) → M.grants memory.now n) → (h : History)
            → FitsBy self.old.follower h → IsOk result }
    {
        let numbers = self.posters.as_slice();
        let standing = StepStanding::before(memory, self.alloc, &self.follower, numbers, step)?;
        let judged = judge(memory, &mut self.told, &mut self.follower, step, text)?;
        let after = self.follower.posted();
        note_poster(memory, &mut self.posters, step, standing.posted(), after)?;
        match judged {
            None => {
                self.steps = self.steps.saturating_add(1);
                Ok(())
            }
            Some(wanted) => {
                self.fault(Verdict::Wrong);
                self.is_over = !self.is_all;
                let number = self.number;
                tell_wrong(memory, &mut self.report, number, line, &wanted, &standing)
            }
        }
    }

    /// Notes a fault, unless there was one before.
    fn fault(&mut self, verdict: Verdict)
        ensures { self.new ≡ record self.old { verdict = first_fault self.old.verdict verdict } }
    {
        if self.verdict == Verdict::Lawful {
            self.verdict = verdict;
        }
    }
}
