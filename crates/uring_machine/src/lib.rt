//! The step machine: a core with files in memory, on which the operation of a request is carried out as it is finished.
#![tactic(auto)]

mod checks;
mod machine;
mod runs;

pub use checks::{check, check_apart};
pub use machine::Machine;
pub use runs::run;
pub use uring_core::{
    Answer, BadSetup, CancelFound, Core, Counts, Cqe, Doom, Fault, NotSubmitted, Op, Outcome,
    Refusal, Setup, Since, Sqe, SqeFlags, Step, Wanted, Why, same_answer,
};
pub use uring_files::FileState;
