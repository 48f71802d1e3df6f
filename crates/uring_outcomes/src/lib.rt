//! Everything that calls may come to: lists of moves, which give calls exactly the outcomes that lawful histories give them, and a walk over all of them, which finds each outcome.
#![tactic(auto)]

// the moves, and what they lead to
pub mod move_laws;
mod move_of_calls;

// the walk
mod ending;
mod endings;
mod fault;
pub mod laws;
mod names;
mod next;
mod paths;
mod run;
mod stage;
mod walk;

pub use ending::Ending;
pub use fault::WalkFault;
pub use move_of_calls::Move;
pub use next::all_next;
pub use paths::{longer, push_longer};
pub use run::Run;
pub use uring_entry::{Cqe, Setup, Sqe};
pub use uring_files::Files;
pub use walk::{EndingsFound, outcomes, outcomes_in, outcomes_within, outcomes_within_in};
