//! What goes from the dispatcher to a worker, and back.

use uring_entry::{Op, Outcome};

/// A request that was started, for the worker that carries its operation out.
#[derive(Clone, Copy)]
pub struct Job {
    /// The request's number.
    pub number: u64,

    /// What it asks for: any operation but a cancel.
    pub op: Op,
}

/// How a worker has carried out the operation of a request.
#[derive(Clone, Copy)]
pub struct JobResult {
    /// The request's number.
    pub number: u64,

    /// How its operation ended.
    pub outcome: Outcome,
}
