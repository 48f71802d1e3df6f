//! The rings as words that their two sides share: each load and each store is one step, under a rule that holds between any two steps. A pair of ports stands over them.
#![tactic(auto)]

mod completion;
mod memory;
mod ports;
mod sides;
mod submission;

pub use memory::TableMemory;
pub use ports::{AppWords, KernelWords, word_ports, word_ports_in};
