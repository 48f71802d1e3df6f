//! The system calls by which an operation is carried out, and what becomes of their results.

// by what an operation is carried out
pub mod held;
pub mod means;
pub mod system_call;

// transfers, and messages in parts
pub mod advance;
pub mod layout;
pub mod parts;
pub mod transfer;
pub mod transfer_calls;

// operations of sockets, splices and polls
pub mod instance;
pub mod splicing;
pub mod waiting_call;

// what a request makes of a result
pub mod call_results;
pub mod signal;
