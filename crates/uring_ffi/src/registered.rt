//! What is registered with a ring: over `uring_register`.

pub mod enrolling_exports;
pub mod listing_exports;
pub mod lists_exports;
pub mod pinning_exports;
pub mod provided_exports;
pub mod register_call_exports;
pub mod register_exports;
pub mod structure_exports;
pub mod uses_exports;
