//! Cores: the place of one, and the calls that are made on it.

pub mod core_calls;
pub mod core_memory;
pub mod core_place;
pub mod whole_call_memory;
pub mod whole_calls;
