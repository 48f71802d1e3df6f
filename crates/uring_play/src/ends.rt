//! All ends of a set-up, as the threads of a play get them and give them back.
ghost use Rattle.std.specs.Prelude.{◌≡◌, List};
ghost use Rattle.uring_threads.specs.Report.{AreTogether};

use std::vec::Vec;
use uring_core::Cqe;
use uring_threads::{AppEnd, AppPort, Kernel, KernelPort, Open, Worker};

/// The application's end, with what it reaped.
#[derive(Drop)]
pub(crate) struct Application<P: AppPort> {
    pub app: AppEnd<P>,

    /// The completions that it reaped, in order.
    pub completions: Vec<Cqe>,

    /// Whether all calls were submitted, and the end was closed.
    pub done: bool,
    ghost reaped: { app.received ≡ completions.items },
}

/// All ends of one set-up.
#[derive(Drop)]
pub(crate) struct Ends<K: KernelPort> {
    pub application: Application<K::App>,
    pub kernel: Kernel<K>,
    pub workers: Vec<Worker<Open>>,
    ghost together: { AreTogether application.app kernel workers.items },
}
