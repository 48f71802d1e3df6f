//! What holds of every lawful history: laws of the definitions alone, each a function with no code, whose clauses say the law.
#![tactic(auto)]

ghost use Rattle.std.specs.Prelude.{◌≡◌, ℕ, true, false};
ghost use Rattle.uring_entry.specs.Requests.{is_outstanding};
ghost use Rattle.uring_entry.specs.Setup.{Setup, IsWithinLimits};
ghost use Rattle.uring_laws.specs.HistoryLists.{OwnSubmission, OwnRequests, OwnCompletions, OwnPosted, OwnCancelled};
ghost use Rattle.uring_core.specs.Histories.{History, world, IsLawfulApart};
ghost use Rattle.uring_laws.specs.Laws.{TakenOnceInOrder, EachEndsOnce, DoomedNeverRun, DoomedStayDoomed, CancelledWereDoomed, LinksAndDrainsHold, ReapedBeginPosted, FlushPutsAll, NothingAfterClose, NoneIsOutstanding, LeastCanGoOn, LawfulStandsApart, NoFinishCancels, WhatRunsIsForFiles};
ghost use Rattle.uring_laws.specs.Published.{OwnPublished};

pub mod calls;
pub mod files;
pub mod linux;
pub mod reasons;
pub mod recorded;
pub mod swaps;

/// Each list and count that a history has made is the one that is read straight off its events: what was posted, by the requests that stood before each end. By the manual pages' rules it is read off the ends and their entries alone, and of the cancelled, who is among them, by what stood before each cancel.
pub fn lists_are_the_historys_own()
    ensures submission { (g : Setup) (h : History) → IsWithinLimits g → IsLawfulApart g h
        → OwnSubmission g h }
    ensures requests { (g : Setup) (h : History) → IsWithinLimits g → IsLawfulApart g h
        → OwnRequests g h }
    ensures completions { (g : Setup) (h : History) → IsWithinLimits g → IsLawfulApart g h
        → OwnCompletions g h }
    ensures posted { (g : Setup) → g.linux ≡ false → (h : History) → IsWithinLimits g
        → IsLawfulApart g h → OwnPosted g h }
    ensures cancelled { (g : Setup) → g.linux ≡ false → (h : History) → IsWithinLimits g
        → IsLawfulApart g h → OwnCancelled g h }
{}

/// What the application published is told by the events: its items, the lengths of the calls that closed, and how many positions these dropped, modulo 2^32.
#[tactic(auto, using(crate::proofs::PublishedItems::own_published))]
pub fn published_is_told()
    ensures { (g : Setup) (h : History) → IsLawfulApart g h → OwnPublished g h }
{}

/// The entries that calls took are those of a beginning of the published positions, in order, each once.
#[tactic(auto, using(crate::proofs::TakenPlaces::once_in_order))]
pub fn taken_once_in_order()
    ensures { (g : Setup) (h : History) → IsWithinLimits g → IsLawfulApart g h
        → TakenOnceInOrder g h }
{}

/// Each request is started at most once and ends at most once, and with none outstanding each accepted one ended exactly once.
#[tactic(auto, using(crate::proofs::RequestLaws::ends_once))]
pub fn each_ends_once()
    ensures { (g : Setup) (h : History) → IsWithinLimits g → IsLawfulApart g h → EachEndsOnce g h }
{}

/// By the manual pages' rules a doomed request is never started, and its end has the result of the doomed; it stays doomed. An `Issue` that ends with -125 (`ECANCELED`) is that of a request that was doomed just before.
pub fn doomed_never_run()
    ensures never_run { (g : Setup) → g.linux ≡ false → (h : History) → IsWithinLimits g
        → IsLawfulApart g h → DoomedNeverRun g h }
    ensures stay_doomed { (g : Setup) → g.linux ≡ false → IsWithinLimits g → DoomedStayDoomed g }
    ensures were_doomed { (g : Setup) → g.linux ≡ false → IsWithinLimits g
        → CancelledWereDoomed g }
{}

/// By the manual pages' rules members of a group, and groups of which one drains, start in order: a request runs, or is carried out as a cancel, only after the end of each earlier one that it waits for.
pub fn links_and_drains_hold()
    ensures { (g : Setup) → g.linux ≡ false → IsWithinLimits g → LinksAndDrainsHold g }
{}

/// What was reaped begins what was posted; of the rest the older part stands in the completion ring, the newer in the overflow list, and waits there only while the ring is full above the head that the dispatcher last loaded.
pub fn reaped_begin_posted()
    ensures { (g : Setup) (h : History) → IsWithinLimits g → IsLawfulApart g h
        → ReapedBeginPosted g.cq (world g h).completions }
{}

/// A flush puts all that was posted into the completion ring, if there is room for it above the head that the application stored.
pub fn flush_puts_all()
    ensures { FlushPutsAll }
{}

/// After the ring is closed, no submission call opens or closes.
#[tactic(auto, using(crate::proofs::RingLaws::nothing_after))]
pub fn nothing_after_close()
    ensures { (g : Setup) → IsWithinLimits g → NothingAfterClose g }
{}

/// The count of the outstanding requests is 0 exactly if none is outstanding.
#[tactic(auto, using(uring_core::proofs::Outstanding::none_outstanding, uring_core::proofs::Outstanding::all_ended))]
pub fn none_is_outstanding()
    ensures { NoneIsOutstanding }
{}

/// By the manual pages' rules, with something outstanding, the least outstanding request is running, or else it is the next to be issued and `Issue` doesn't refuse it.
pub fn least_can_go_on()
    ensures { (g : Setup) → g.linux ≡ false → (h : History) (n : ℕ)
        → is_outstanding (world g h).requests n ≡ true
        → LeastCanGoOn g (world g h) }
{}

/// What is lawful is lawful apart from what operations gave, so that every law holds of it. In a lawful history no finish ends with -125 (`ECANCELED`), so that by the manual pages' rules each such end is that of a request that was doomed just before.
#[tactic(auto, using(crate::proofs::WholeLaws::lawful_apart, crate::proofs::WholeLaws::finish_never_cancels))]
pub fn operations_never_cancel()
    ensures apart { (g : Setup) → LawfulStandsApart g }
    ensures never { (g : Setup) → NoFinishCancels g }
{}

/// What runs in a lawful history can be carried out on files: it is no cancel, and its transfer is at most 64 bytes.
#[tactic(auto, using(uring_core::proofs::Running::no_cancel, uring_core::proofs::Running::running_asks, std::proofs::lemmas::Bool::and_parts))]
pub fn what_runs_is_for_files()
    ensures { (g : Setup) → IsWithinLimits g → WhatRunsIsForFiles g }
{}
