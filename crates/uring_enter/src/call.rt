//! One call: what it is asked for, what it does next, and what it returns.

// what is asked, and when it is refused
pub mod argument;
pub mod asked;
pub mod passage;
pub mod reaching;

// what a call does next
pub mod command;
pub mod enter;
pub mod reply;
pub mod wait;

// signals and sleep
pub mod signals;
pub mod slept;

// what can't be asked
pub mod unknown;

// laws of the definitions alone
pub mod laws;
