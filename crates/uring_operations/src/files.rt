//! The files of a request: what they are, how they are opened, and how long they are kept.

// what a descriptor is, and how it is opened and kept
pub mod asking;
pub mod descriptor;
pub mod keeping;
pub mod openness;
pub mod pipe_open;
pub mod remembering;
pub mod start_fault;
pub mod syncing;
pub mod told_lock;

// what is logged, so that it is known what a power failure may leave
pub mod logged_bytes;
pub mod logged_call;
pub mod logged_name;
pub mod logged_words;
pub mod logging;
pub mod mapped;
