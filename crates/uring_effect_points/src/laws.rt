//! Effects of operations at any moment between the issue of a request and its finish, as a kernel may have them: laws of what is lawful then.

ghost use Rattle.uring_entry.specs.Setup.{Setup};
ghost use Rattle.uring_effect_points.specs.Laws.{EarlyEffectsAllowMore, EarlyEffectsCanWait, EarlyEffectsGiveAllowed};

/// What is lawful by the core's files, which take each effect at the finish, is lawful by early effects.
pub fn early_effects_allow_more()
    ensures { (g : Setup) → EarlyEffectsAllowMore g }
{}

/// Whenever effects are taken, each result is one that its operation may give (`uring_entry::may_end`).
pub fn early_effects_give_allowed()
    ensures { (g : Setup) → EarlyEffectsGiveAllowed g }
{}

/// Effects can wait for a finish: where a history is lawful by early effects, there is a timeline with effects right before finishes alone, the last of them that of the request that finishes.
pub fn early_effects_can_wait()
    ensures { (g : Setup) → EarlyEffectsCanWait g }
{}
