//! One end is dropped in the middle, and the others go on.

use super::ends::Ends;
use super::rows::Put::Nop;
use super::rows::{completion, items, turn};
use uring_threads::Worked::Done;
use uring_threads::{
    AppEnd, AppPort, CloseRefusal, Kernel, KernelPort, Open, SubmitRefusal, Turn, Worked, Worker,
};

/// Whether the dispatcher's next turn is this.
fn turns<K: KernelPort>(kernel: &mut Kernel<K>, wanted: Turn) -> bool {
    kernel.turn().ok() == Some(wanted)
}

/// Whether this is what worker 0 does in its next turn.
fn works(workers: &mut [Worker<Open>], wanted: Worked) -> bool {
    match workers.first_mut() {
        Some(worker) => worker.turn() == wanted,
        None => false,
    }
}

/// Whether all jobs of two calls are done and delivered, and the ring isn't closed.
fn carries_out_all<K: KernelPort>(kernel: &mut Kernel<K>, workers: &mut [Worker<Open>]) -> bool {
    turns(kernel, turn(1, 1, 0, 0))
        && turns(kernel, turn(2, 2, 0, 0))
        && works(workers, Done(0))
        && works(workers, Done(1))
        && works(workers, Done(2))
        && turns(kernel, turn(0, 0, 3, 3))
        && !kernel.idle()
}

/// Whether four more items are put and no more, and nothing comes back.
fn is_full_after_four<P: AppPort>(app: &mut AppEnd<P>) -> bool {
    let four = items(&[Nop(2), Nop(3), Nop(4), Nop(5)]);
    app.submit(&four[..4]) == Ok(())
        && app.submit(&four[..1]) == Err(SubmitRefusal::Full)
        && app.close() == Err(CloseRefusal::Full)
        && app.reap().is_none()
}

/// Whether the no-op that worker 0 has is done and comes back, and the write beside it doesn't.
fn brings_one_back<K: KernelPort>(
    app: &mut AppEnd<K::App>,
    kernel: &mut Kernel<K>,
    workers: &mut [Worker<Open>],
) -> bool {
    works(workers, Done(1))
        && turns(kernel, turn(0, 0, 1, 1))
        && app.reap() == Some(completion(2))
        && app.reap().is_none()
}

/// Whether without the application what it submitted is carried out.
pub fn goes_without_application<K: KernelPort>(ends: Ends<K, Open>) -> bool {
    let Ends {
        app,
        mut kernel,
        mut workers,
    } = ends;
    drop(app);
    let right = carries_out_all(&mut kernel, &mut workers);
    drop(kernel);
    drop(workers);
    right
}

/// Whether without the dispatcher the job that it issued is done, and what is put then stays.
pub fn goes_without_dispatcher<K: KernelPort>(ends: Ends<K, Open>) -> bool {
    let Ends {
        mut app,
        kernel,
        mut workers,
    } = ends;
    drop(kernel);
    let right = works(&mut workers, Done(0)) && is_full_after_four(&mut app);
    drop(app);
    drop(workers);
    right
}

/// Whether without the last worker, which has a write, the no-op beside that comes back.
pub fn goes_without_worker<K: KernelPort>(ends: Ends<K, Open>) -> bool {
    let Ends {
        mut app,
        mut kernel,
        mut workers,
    } = ends;
    workers.truncate(1);
    let right = brings_one_back(&mut app, &mut kernel, &mut workers);
    drop(app);
    drop(kernel);
    drop(workers);
    right
}
