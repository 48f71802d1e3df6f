//! The threads of a play: each end in a thread of its own, from the start of all of them until all have ended and are settled.
ghost use Rattle.std.specs.Prelude.{◌≡◌, ◌≤◌, ℕ, List, [], length, Option, IfOk, OnOk, Ok, vec_capacity};
ghost use Rattle.std.specs.declared.thread.PromisedHandle.{PromisedHandle};
ghost use Rattle.uring_entry.specs.Setup.{Setup};
ghost use Rattle.uring_ports.specs.Ports.{nothing_put};
ghost use Rattle.uring_play_text.specs.Inputs.{ReadsCalls};
ghost use Rattle.uring_play.specs.Threads.{AreFresh, StayWorkers, workers_of};
ghost use Rattle.uring_play.specs.Plays.{Plays};

use crate::ends::Ends;
use crate::promises::{WorkerThread, start_application, start_dispatcher, start_worker};
use crate::settling::settle_all;
use std::alloc::{AllocError, Global};
use std::io::Write;
use std::sync::atomic::{AtomicBool, Ordering};
use std::sync::{Arc, Wait};
use std::thread::{Promise, PromisedHandle, Threads};
use uring_play_text::PlayFault;
use uring_threads::{Item, KernelPort, Open, Worker};

/// Plays these calls by these ends, and writes what comes of it, as `play` does: runs the application, the dispatcher and each worker in a thread of its own until all have ended, and settles the ends. Condition: nothing was submitted.
pub(crate) fn run<
    R: Threads + Wait + Copy + Send + 'static,
    K: KernelPort + Send + 'static,
    O: Write,
>(
    rt: R,
    alloc: Global,
    writer: &mut O,
    ends: Ends<K>,
    calls: Vec<Vec<Item>>,
) -> Result<(), PlayFault>
where
    K::App: Send + 'static,
    requires { ends.application.app.submitted ≡ nothing_put }
    ensures { (g : Setup) (workers : ℕ) (before after : Option (List ℕ)) → AreFresh g workers ends
        → ReadsCalls g (Ok calls) before after
        → Plays g workers result before after (O.contents writer.old) (O.contents writer.new) }
{
    let Ok(rooms) = make_rooms(alloc, ends.workers.len()) else {
        drop(ends);
        drop(calls);
        return Err(PlayFault::Memory);
    };
    let Rooms {
        stop,
        mut started,
        back,
    } = rooms;
    let Ends {
        application,
        kernel,
        workers,
    } = ends;
    let served = start_workers(rt, workers, &stop, &mut started);
    let dispatcher = start_dispatcher(rt, kernel, &stop);
    let application = start_application(rt, application, calls, &stop);
    if served.is_err() || dispatcher.is_err() || application.is_err() {
        stop.store(true, Ordering::SeqCst);
    }
    let application = join(&rt, application);
    let kernel = join(&rt, dispatcher);
    stop.store(true, Ordering::SeqCst);
    let workers = join_workers(rt, started, back);
    match all_back(application, kernel, served, workers) {
        Ok((application, kernel, workers)) => {
            let ended = Ends {
                application,
                kernel,
                workers,
            };
            settle_all(alloc, writer, ended)
        }
        Err(_) => Err(PlayFault::Memory),
    }
}

/// What the threads of a play need beside its ends.
#[derive(Drop)]
struct Rooms {
    // The threads are to end.
    stop: Arc<AtomicBool>,
    started: Vec<WorkerThread>,
    // For the workers that come back.
    back: Vec<Worker<Open>>,
}

/// Rooms for so many workers. `AllocError`: out of memory.
fn make_rooms(alloc: Global, workers: usize) -> Result<Rooms, AllocError>
    ensures started { IfOk result (λ rooms. rooms.started.items ≡ []) }
    ensures started_room { IfOk result (λ rooms. workers ≤ vec_capacity rooms.started) }
    ensures back { IfOk result (λ rooms. rooms.back.items ≡ []) }
    ensures back_room { IfOk result (λ rooms. workers ≤ vec_capacity rooms.back) }
{
    Ok(Rooms {
        stop: Arc::new(alloc, AtomicBool::new(false))?,
        started: Vec::with_capacity(alloc, workers)?,
        back: Vec::with_capacity(alloc, workers)?,
    })
}

/// Starts a thread for each worker, in their order. `AllocError`: one of them can't be started.
fn start_workers<R: Threads + Wait + Copy + Send + 'static>(
    rt: R,
    workers: Vec<Worker<Open>>,
    stop: &Arc<AtomicBool>,
    started: &mut Vec<WorkerThread>,
) -> Result<(), AllocError>
    requires none { started.old.items ≡ [] }
    requires room { length workers.items ≤ vec_capacity started.old }
    ensures few { length started.new.items ≤ length workers.items }
    ensures started { OnOk result (workers_of started.new.items ≡ workers.items) }
{
    for worker in workers {
        let thread = start_worker(rt, worker, stop)?;
        started.push_reserved(thread);
    }
    Ok(())
}

/// What a thread gives back, if it was started.
fn join<R: Threads, T, P: Promise<T>>(
    rt: &R,
    thread: Result<PromisedHandle<T, P>, AllocError>,
) -> Result<T, AllocError>
    ensures { IfOk result (λ given. (t : PromisedHandle T P) × (thread ≡ Ok t) × P.kept_by t.promise given) }
{
    Ok(thread?.join(rt))
}

/// What the threads of the application, the dispatcher and the workers gave back, if all of them were started.
fn all_back<A: Drop, K: Drop, W: Drop>(
    application: Result<A, AllocError>,
    kernel: Result<K, AllocError>,
    served: Result<(), AllocError>,
    workers: W,
) -> Result<(A, K, W), AllocError>
    ensures application { IfOk result (λ all. application ≡ Ok all.0) }
    ensures kernel { IfOk result (λ all. kernel ≡ Ok all.1) }
    ensures served { OnOk result (served ≡ Ok tt) }
    ensures workers { IfOk result (λ all. workers ≡ all.2) }
{
    let application = application?;
    let kernel = kernel?;
    served?;
    Ok((application, kernel, workers))
}

/// Joins the threads of workers, and gives the workers back in their order.
fn join_workers<R: Threads + Copy>(
    rt: R,
    started: Vec<WorkerThread>,
    back: Vec<Worker<Open>>,
) -> Vec<Worker<Open>>
    requires none { back.items ≡ [] }
    requires room { length started.items ≤ vec_capacity back }
    ensures { StayWorkers (workers_of started.items) result.items }
{
    let mut back = back;
    for thread in started {
        back.push_reserved(thread.join(&rt));
    }
    back
}
