//! The files of a request: what they are, how they are opened, and what is logged of them.

pub mod descriptor_exports;
pub mod logged_exports;
pub mod logging_exports;
pub mod opening_exports;
pub mod remembering_exports;
