//! The proved core and machine for programs in C. `c/include/wulgach.h` is the header: what it says of a call is the contract of the function of that name here, in the words that cross.
#![tactic(auto)]

mod cores;
mod enter;
mod operations;
mod registered;
mod written;
