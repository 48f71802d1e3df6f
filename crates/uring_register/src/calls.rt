//! The calls of io_uring_register(2): which there are, what each reads, for which arguments it is refused, and in which steps it is made.

pub mod call;
pub mod call_laws;
pub mod stepping;
pub mod structures;
