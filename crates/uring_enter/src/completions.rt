//! What is posted, what the application is shown, and what it has reaped.

pub mod posted;
pub mod posting_laws;
pub mod readable;
pub mod shot;
pub mod showing;
pub mod showing_laws;
pub mod storing;
pub mod unsent;
