//! What an entry asks for, and what is wrong with it.

pub mod entry_exports;
pub mod form_exports;
pub mod named_exports;
pub mod strict_exports;
