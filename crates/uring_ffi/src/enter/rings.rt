//! How a ring is set up, mapped and freed, and what another ring is told.

pub mod closing_exports;
pub mod copying_exports;
pub mod message_exports;
pub mod missing_exports;
pub mod ring_exports;
pub mod set_up_exports;
