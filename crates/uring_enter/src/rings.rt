//! How a ring is set up, mapped and freed, and what another ring is told.

pub mod asked_ring;
pub mod closing;
pub mod copying;
pub mod mapping;
pub mod message;
pub mod missing;
pub mod ringing;
pub mod visit;
