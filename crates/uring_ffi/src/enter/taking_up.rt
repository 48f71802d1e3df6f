//! Which entries a call takes, and which are drained.

pub mod chain_exports;
pub mod taking_exports;
