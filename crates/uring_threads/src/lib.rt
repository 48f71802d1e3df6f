//! The dispatcher as an end that a thread owns, and all ends of a set-up with the application's and the workers': submissions, completions, jobs and results go from end to end, and the dispatcher records its steps as a trace.
#![tactic(auto)]

pub mod laws;

// events in few bytes, of which the trace is made
mod brief;
mod events;
mod store;

// the dispatcher's side
mod calls;
mod collect;
mod deliveries;
mod intake;
mod issues;
mod kept;
mod kernel;
mod put_items;
mod take_result;
mod turns;

// all sides
mod opening;
mod report;
mod settle_ends;
mod settle_work;

pub use events::Events;
pub use kernel::Kernel;
pub use opening::{LanesFault, check_ends, ends, ends_in, lanes, lanes_in, words, words_in};
pub use report::Report;
pub use settle_ends::{NotSettled, settle, settle_in};
pub use turns::Turn;
pub use uring_core::{Answer, Core, Counts, Cqe, Fault, Op, Outcome, Setup, Sqe, SqeFlags, Step};
pub use uring_memory::Memory;
pub use uring_ports::{
    AppEnd, AppLanes, AppPort, CloseRefusal, Item, KernelLanes, KernelPort, LaneMemory, Pulled,
    Rests, SubmitRefusal, lane_ports, lane_ports_in, take_undelivered,
};
pub use uring_words::{AppWords, KernelWords, TableMemory, word_ports, word_ports_in};
pub use uring_workers::{FileState, Files, Gate, Job, JobResult, Open, Worked, Worker};
