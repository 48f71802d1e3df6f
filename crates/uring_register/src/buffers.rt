//! Buffers: which memory may be registered, what an operation has of a buffer, and which of those that are provided it takes.

pub mod bytes;
pub mod group;
pub mod group_laws;
pub mod group_rows;
pub mod pinning;
