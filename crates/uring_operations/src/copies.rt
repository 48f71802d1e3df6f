//! What is copied of the application's memory, and what is told there.

pub mod copying;
pub mod message_copying;
pub mod piece;
pub mod received;
