//! Which entries a call takes, what the core is given of them, and which are drained.

pub mod core_entry;
pub mod drains;
pub mod rounds;
pub mod taking;
pub mod taking_laws;
