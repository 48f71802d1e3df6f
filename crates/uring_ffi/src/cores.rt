//! Cores, machines, volumes and outcomes.

pub mod core_exports;
pub mod core_request_exports;
pub mod core_word_exports;
pub mod crash_image_exports;
pub mod crash_machine_exports;
pub mod machine_exports;
pub mod outcomes_exports;
pub mod trace_exports;
pub mod volume_exports;
pub mod whole_call_exports;
