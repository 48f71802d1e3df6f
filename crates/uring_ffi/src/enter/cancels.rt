//! What a cancel, a removal or an update finds, and what it does with that.

pub mod cancel_exports;
pub mod cancelling_exports;
pub mod update_exports;
