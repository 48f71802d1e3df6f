//! What each thread of a play promises of the ends that it gives back.
ghost use Rattle.std.specs.Prelude.{◌≡◌, IfOk};
ghost use Rattle.uring_ports.specs.Ports.{nothing_put};
ghost use Rattle.uring_play_text.specs.Inputs.{lists_of};
ghost use Rattle.uring_play.specs.Threads.{Applies, StaysKernel, StaysWorker};

use crate::application::apply;
use crate::ends::Application;
use crate::serving::{dispatch, work};
use std::alloc::AllocError;
use std::snapshot::Snapshot;
use std::sync::atomic::AtomicBool;
use std::sync::{Arc, Wait};
use std::thread;
use std::thread::{Promise, PromisedHandle, Threads};
use uring_threads::{AppEnd, AppPort, Item, Kernel, KernelPort, Open, Worker};

/// The application's thread submits these calls through this end.
#[derive(Drop)]
pub(crate) struct AppliesAll<P: AppPort> {
    before: Snapshot<AppEnd<P>>,
    calls: Snapshot<Vec<Vec<Item>>>,
}

impl<P: AppPort> Promise<Application<P>> for AppliesAll<P> {
    ghost use Rattle.uring_play_text.specs.Inputs.{lists_of};
    ghost use Rattle.uring_play.specs.Threads.{Applies};

    ghost kept_by = { λ p after. Applies p.before.value (lists_of p.calls.value.items) after };
}

/// The dispatcher's thread gives this end back.
#[derive(Drop)]
pub(crate) struct GivesKernel<K: KernelPort>(Snapshot<Kernel<K>>);

impl<K: KernelPort> Promise<Kernel<K>> for GivesKernel<K> {
    ghost use Rattle.uring_play.specs.Threads.{StaysKernel};

    ghost kept_by = { λ p kernel. StaysKernel p.0.value kernel };
}

/// A worker's thread gives this worker back.
#[derive(Drop)]
pub(crate) struct GivesWorker(Snapshot<Worker<Open>>);

impl Promise<Worker<Open>> for GivesWorker {
    ghost use Rattle.uring_play.specs.Threads.{StaysWorker};

    ghost kept_by = { λ p worker. StaysWorker p.0.value worker };
}

/// The application's thread.
pub(crate) type ApplicationThread<P> = PromisedHandle<Application<P>, AppliesAll<P>>;

/// The dispatcher's thread.
pub(crate) type KernelThread<K> = PromisedHandle<Kernel<K>, GivesKernel<K>>;

/// The thread of a worker.
pub(crate) type WorkerThread = PromisedHandle<Worker<Open>, GivesWorker>;

/// Starts the application's thread. `AllocError`: it can't be started.
pub(crate) fn start_application<
    R: Threads + Wait + Copy + Send + 'static,
    P: AppPort + Send + 'static,
>(
    rt: R,
    application: Application<P>,
    calls: Vec<Vec<Item>>,
    stop: &Arc<AtomicBool>,
) -> Result<ApplicationThread<P>, AllocError>
    requires { application.app.submitted ≡ nothing_put }
    ensures before { IfOk result (λ thread. thread.promise.before.value ≡ application.app) }
    ensures calls { IfOk result (λ thread. thread.promise.calls.value ≡ calls) }
{
    let Ok(stop) = Arc::try_clone(stop) else {
        drop(application);
        drop(calls);
        return Err(AllocError);
    };
    let promise = AppliesAll {
        before: Snapshot::of(&application.app),
        calls: Snapshot::of(&calls),
    };
    let body = move || -> Application<P>
        requires { application.app.submitted ≡ nothing_put }
        ensures { Applies application.app (lists_of calls.items) result }
    { apply(&rt, application, calls, &stop) };
    match thread::spawn_with(&rt, promise, body) {
        Ok(thread) => Ok(thread),
        Err(refused) => Err(AllocError::from(refused)),
    }
}

/// Starts the dispatcher's thread. `AllocError`: it can't be started.
pub(crate) fn start_dispatcher<
    R: Threads + Wait + Copy + Send + 'static,
    K: KernelPort + Send + 'static,
>(rt: R, kernel: Kernel<K>, stop: &Arc<AtomicBool>) -> Result<KernelThread<K>, AllocError>
where
    K::App: Send + 'static,
    ensures { IfOk result (λ thread. thread.promise.0.value ≡ kernel) }
{
    let Ok(stop) = Arc::try_clone(stop) else {
        drop(kernel);
        return Err(AllocError);
    };
    let promise = GivesKernel(Snapshot::of(&kernel));
    let body = move || -> Kernel<K>
        ensures { StaysKernel kernel result }
    { dispatch(&rt, kernel, &stop) };
    match thread::spawn_with(&rt, promise, body) {
        Ok(thread) => Ok(thread),
        Err(refused) => Err(AllocError::from(refused)),
    }
}

/// Starts a worker's thread. `AllocError`: it can't be started.
pub(crate) fn start_worker<R: Threads + Wait + Copy + Send + 'static>(
    rt: R,
    worker: Worker<Open>,
    stop: &Arc<AtomicBool>,
) -> Result<WorkerThread, AllocError>
    ensures { IfOk result (λ thread. thread.promise.0.value ≡ worker) }
{
    let Ok(stop) = Arc::try_clone(stop) else {
        drop(worker);
        return Err(AllocError);
    };
    let promise = GivesWorker(Snapshot::of(&worker));
    let body = move || -> Worker<Open>
        ensures { StaysWorker worker result }
    { work(&rt, worker, &stop) };
    match thread::spawn_with(&rt, promise, body) {
        Ok(thread) => Ok(thread),
        Err(refused) => Err(AllocError::from(refused)),
    }
}
