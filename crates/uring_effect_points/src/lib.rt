//! Whether a history is lawful by early effects: a search for the moments at which its operations took effect, between issue and finish, so that each result and its bytes are what the files gave then.
#![tactic(auto)]

// what is lawful where effects come early
pub mod laws;

// a search for the moments at which operations took effect
mod apply;
mod copies;
mod mark;
mod running;
mod search;
mod state;
mod takers;

// a history's moments, and the bytes that some of its operations gave
mod bytes;
mod decision;
mod known;
mod marks;

pub use bytes::{find_bytes, find_bytes_in};
pub use decision::{EffectsFound, find_effects, find_effects_in};
pub use mark::{End, Mark};
pub use running::Running;
pub use search::{Fate, explain, explain_in};
pub use uring_core::Setup;
