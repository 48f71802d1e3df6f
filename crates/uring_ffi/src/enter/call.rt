//! What a call is asked for, what it does next, and what it returns.

pub mod argument_exports;
pub mod enter_exports;
pub mod passage_exports;
pub mod reaching_exports;
pub mod signal_exports;
pub mod unknown_exports;
