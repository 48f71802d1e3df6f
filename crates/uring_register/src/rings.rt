//! What a ring has: restrictions, an issuer, an eventfd, and a number in each thread.

pub mod enrolled;
pub mod enrolled_laws;
pub mod eventfd;
pub mod issuer;
pub mod issuer_laws;
pub mod numbering;
pub mod restrictions;
