//! What one request is, and how its operation is carried out: over `uring_operations`, in folders as there.

pub mod calls;
pub mod copies;
pub mod entries;
pub mod files;
pub mod requests;
