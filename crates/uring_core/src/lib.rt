//! The core: rings and dispatcher without files. The steps of application and dispatcher in any order, each with its answer; what operations give comes from outside.
#![tactic(auto)]

mod answer;
mod conversions;
mod cores;
mod follow;
mod step;
mod stopping;
mod wanted;

pub use answer::{Answer, same_answer};
pub use cores::{Core, Counts, NotSubmitted};
pub use follow::compared;
pub use step::{Step, StepWords, same_step};
pub use uring_dispatch::CancelFound;
pub use uring_entry::{BadSetup, Cqe, Doom, Fault, Op, Outcome, Setup, Since, Sqe, SqeFlags, Why};
pub use wanted::{Refusal, Wanted};
