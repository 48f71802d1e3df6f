//! What holds of every lawful history of a ring that keeps requests by Linux's rules: laws of the definitions alone, beside those of `lib.rt` that hold by either's.
ghost use Rattle.std.specs.Prelude.{◌≡◌, true};
ghost use Rattle.uring_entry.specs.Setup.{Setup, IsWithinLimits};
ghost use Rattle.uring_core.specs.Histories.{History, IsLawfulApart};
ghost use Rattle.uring_laws.specs.LinuxLaws.{DoomedNeverRun, DoomedStayDoomed, CancelledWereDoomed, MembersGoInOrder, DeferredDontStart, DrainsHold, LeastFreeGoesOn, CancelsDoomNobody};

/// A doomed request is never started, and its end has the result of the doomed; it stays doomed. An `Issue` that ends with -125 (`ECANCELED`) is that of a request that was doomed just before.
pub fn doomed_are_never_started()
    ensures never_run { (g : Setup) → g.linux ≡ true → (h : History) → IsWithinLimits g
        → IsLawfulApart g h → DoomedNeverRun g h }
    ensures stay_doomed { (g : Setup) → g.linux ≡ true → IsWithinLimits g → DoomedStayDoomed g }
    ensures were_doomed { (g : Setup) → g.linux ≡ true → IsWithinLimits g → CancelledWereDoomed g }
{}

/// Members of a group start, or end as doomed, in their order: each only after the end of each earlier one.
pub fn members_go_in_order()
    ensures { (g : Setup) → g.linux ≡ true → IsWithinLimits g → MembersGoInOrder g }
{}

/// What starts is of no group that a drain holds back.
pub fn deferred_dont_start()
    ensures { (g : Setup) → g.linux ≡ true → IsWithinLimits g → DeferredDontStart g }
{}

/// What starts has waited at least for these that links and drains put before it: each earlier member of its group, everything before a group that drains, and each group before it that drains and has no fault. All of these have ended, once. A group drains if a member asks to, or its first takes the drain that one before it owes.
pub fn drains_hold()
    ensures { (g : Setup) → g.linux ≡ true → IsWithinLimits g → DrainsHold g }
{}

/// With something outstanding, not all of it is deferred, and the least outstanding request that isn't is running, or else `Issue` doesn't refuse it.
pub fn least_free_goes_on()
    ensures { (g : Setup) → g.linux ≡ true → IsWithinLimits g → LeastFreeGoesOn g }
{}

/// No cancel dooms anybody: what it finds runs, and goes on.
pub fn cancels_doom_nobody()
    ensures { (g : Setup) → g.linux ≡ true → IsWithinLimits g → CancelsDoomNobody g }
{}
