//! Machines, also those whose power may fail: the place of one, and the calls that are made on it.

pub mod crash_machine_calls;
pub mod crash_machine_memory;
pub mod crash_machine_place;
pub mod machine_calls;
pub mod machine_memory;
pub mod machine_place;
