//! All ends of a set-up in one value, so that they can be settled at any moment.
ghost use Rattle.uring_threads.specs.Report.{AreTogether};

use super::rows::{Put, items};
use std::alloc::Global;
use uring_threads::{
    AppEnd, Gate, Kernel, KernelLanes, KernelPort, KernelWords, Report, Setup, SubmitRefusal, Turn,
    Worked, Worker, lanes, settle, words,
};

/// All ends of one set-up over ports of this kind.
#[derive(Drop)]
pub struct Ends<K: KernelPort, G: Gate> {
    pub app: AppEnd<K::App>,
    pub kernel: Kernel<K>,
    pub workers: Vec<Worker<G>>,
    ghost together: { AreTogether app kernel workers.items },
}

/// A kind of ports that all ends are made over: lanes, or shared words.
pub trait Ports: KernelPort {
    /// New ends, with a worker for each gate, if there can be such.
    fn ends<G: Gate>(alloc: Global, setup: &Setup, gates: Vec<G>) -> Option<Ends<Self, G>>;

    /// What the application sees of this dropped word: over lanes there is none.
    fn shown(dropped: u32) -> Option<u32>;
}

impl Ports for KernelLanes {
    fn ends<G: Gate>(alloc: Global, setup: &Setup, gates: Vec<G>) -> Option<Ends<KernelLanes, G>> {
        match lanes(alloc, setup, gates) {
            Ok((app, kernel, workers)) => Some(Ends {
                app,
                kernel,
                workers,
            }),
            Err(_) => None,
        }
    }

    fn shown(_dropped: u32) -> Option<u32> {
        None
    }
}

impl Ports for KernelWords {
    fn ends<G: Gate>(alloc: Global, setup: &Setup, gates: Vec<G>) -> Option<Ends<KernelWords, G>> {
        match words(alloc, setup, gates) {
            Ok((app, kernel, workers)) => Some(Ends {
                app,
                kernel,
                workers,
            }),
            Err(_) => None,
        }
    }

    fn shown(dropped: u32) -> Option<u32> {
        Some(dropped)
    }
}

impl<K: KernelPort, G: Gate> Ends<K, G> {
    /// Whether the submission of these items is answered so.
    pub fn submits(&mut self, puts: &[Put], wanted: Result<(), SubmitRefusal>) -> bool {
        let count = puts.len().min(5);
        self.app.submit(&items(puts)[..count]) == wanted
    }

    /// A turn of the dispatcher, unless the system is out of memory.
    pub fn turn(&mut self) -> Option<Turn> {
        self.kernel.turn().ok()
    }

    /// A turn of the worker at this place, if there is one.
    pub fn work(&mut self, place: usize) -> Option<Worked> {
        if place >= self.workers.len() {
            return None;
        }
        Some(self.workers[place].turn())
    }

    /// What all ends leave, or the ends as they were: out of memory.
    pub fn settle(self, alloc: Global) -> Result<Report<G>, Ends<K, G>> {
        let Ends {
            app,
            kernel,
            workers,
        } = self;
        match settle(alloc, app, kernel, workers) {
            Ok(report) => Ok(report),
            Err(ends) => Err(Ends {
                app: ends.app,
                kernel: ends.kernel,
                workers: ends.workers,
            }),
        }
    }
}
