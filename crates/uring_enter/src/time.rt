//! The time of a ring, and its timeouts.

pub mod held;
pub mod time_laws;
pub mod timeout_rows;
pub mod times;
