//! What a cancel, a removal or an update finds, and what it does with that.

pub mod awaiting;
pub mod cancel;
pub mod cancel_laws;
pub mod ranks;
pub mod search;
pub mod seeking;
pub mod update;
