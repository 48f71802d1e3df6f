//! What is posted, what the application is shown, and what it has reaped.

pub mod shown_exports;
pub mod stepping_exports;
