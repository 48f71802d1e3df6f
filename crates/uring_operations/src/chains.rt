//! Which request is linked to which, and which one limits another.

pub mod chain_laws;
pub mod member;
pub mod timing;
