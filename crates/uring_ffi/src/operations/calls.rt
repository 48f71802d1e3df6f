//! The system calls by which an operation is carried out, and what becomes of their results.

pub mod call_exports;
pub mod carrying_exports;
