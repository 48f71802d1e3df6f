//! The threads of a play that serve the application: the dispatcher's, and one for each worker.
ghost use Rattle.uring_play.specs.Threads.{StaysKernel, StaysWorker};

use std::sync::Wait;
use std::sync::atomic::{AtomicBool, Ordering};
use std::thread;
use uring_threads::{Kernel, KernelPort, Open, Worked, Worker};

/// Turns the dispatcher until it is idle or out of memory, or the threads are to stop, and then tells all threads to stop.
pub(crate) fn dispatch<R: Wait, K: KernelPort>(
    rt: &R,
    kernel: Kernel<K>,
    stop: &AtomicBool,
) -> Kernel<K>
    ensures { StaysKernel kernel result }
{
    let mut kernel = kernel;
    for _ in rt.forever() {
        if !goes_on(&mut kernel, stop) {
            break;
        }
    }
    stop.store(true, Ordering::SeqCst);
    kernel
}

/// Makes a turn, and lets other threads run if nothing was done in it. False if the dispatcher is idle or out of memory, or the threads are to stop.
fn goes_on<K: KernelPort>(kernel: &mut Kernel<K>, stop: &AtomicBool) -> bool
    ensures { StaysKernel kernel.old kernel.new }
{
    if stop.load(Ordering::SeqCst) || kernel.idle() {
        return false;
    }
    let Ok(turn) = kernel.turn() else {
        return false;
    };
    if turn.popped == 0 && turn.issued == 0 && turn.finished == 0 && turn.delivered == 0 {
        thread::yield_now();
    }
    true
}

/// Turns a worker until the threads are to stop.
pub(crate) fn work<R: Wait>(rt: &R, worker: Worker<Open>, stop: &AtomicBool) -> Worker<Open>
    ensures { StaysWorker worker result }
{
    let mut worker = worker;
    for _ in rt.forever() {
        if stop.load(Ordering::SeqCst) {
            break;
        }
        match worker.turn() {
            Worked::Done(_) => {}
            Worked::Idle | Worked::Held => thread::yield_now(),
        }
    }
    worker
}
