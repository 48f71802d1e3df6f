//! What is copied of the application's memory, and what is told there.

pub mod piece_exports;
pub mod received_exports;
