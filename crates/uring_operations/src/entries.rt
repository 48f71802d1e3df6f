//! What an entry asks for, and what is wrong with it.

// an entry, and what it asks for
pub mod kind;
pub mod named;
pub mod needs;
pub mod submission;

// what is wrong with one
pub mod buffer;
pub mod fields;
pub mod form;
pub mod name;
pub mod provision;
pub mod rule;
pub mod socket_form;
pub mod strict;

// no-ops and timeouts
pub mod no_op;
pub mod timeout;
