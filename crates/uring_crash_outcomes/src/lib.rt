//! What a power failure may show of calls, at any moment: the completions posted by then, and what is left of each file.
#![tactic(auto)]

mod crash;
mod fault;
pub mod laws;
mod trial;
mod walk;

pub use crash::Crash;
pub use fault::CrashFault;
pub use walk::{FoundCrashes, crashes_within, crashes_within_in};
