//! The application's thread of a play: it submits calls, closes, and reaps.
ghost use Rattle.std.specs.Prelude.{◌≡◌, ◌++◌, IsTrue};
ghost use Rattle.uring_ports.specs.Ports.{nothing_put, with_call, with_close};
ghost use Rattle.uring_play_text.specs.Inputs.{lists_of};
ghost use Rattle.uring_play.specs.Threads.{Applies, OnlyReaps, StaysApp};

use crate::ends::Application;
use std::sync::Wait;
use std::sync::atomic::{AtomicBool, Ordering};
use std::thread;
use uring_threads::{AppPort, CloseRefusal, Item, SubmitRefusal};

/// How many completions are reaped before a call is tried once more.
const MOST_REAPED: u32 = 64;

/// Submits each call in order and closes, while the threads run; a call that finds no room is submitted once more. Reaps in between, and then until the threads are to stop, for as many completions as there is memory for.
pub(crate) fn apply<R: Wait, P: AppPort>(
    rt: &R,
    application: Application<P>,
    calls: Vec<Vec<Item>>,
    stop: &AtomicBool,
) -> Application<P>
    requires { application.app.submitted ≡ nothing_put }
    ensures { Applies application.app (lists_of calls.items) result }
{
    let mut application = application;
    let done = application.submit_all(rt, calls.as_slice(), stop) && application.close(rt, stop);
    application.reap_until(rt, stop);
    application.done = done;
    application
}

impl<P: AppPort> Application<P> {
    /// Submits each call in order. False if the threads are to stop before, or a call can't be submitted.
    fn submit_all<R: Wait>(&mut self, rt: &R, calls: &[Vec<Item>], stop: &AtomicBool) -> bool
        ensures submitted { IsTrue result
            → self.new.app.submitted
            ≡ record { calls = self.old.app.submitted.calls ++ lists_of calls.now; closed = self.old.app.submitted.closed } }
        ensures stays { StaysApp self.old.app self.new.app }
    {
        for call in calls {
            if !self.submit(rt, call.as_slice(), stop) {
                return false;
            }
        }
        true
    }

    /// Submits a call, once more wherever the end is full. False if the threads are to stop before, or the call can't be submitted.
    fn submit<R: Wait>(&mut self, rt: &R, call: &[Item], stop: &AtomicBool) -> bool
        ensures submitted { IsTrue result
            → self.new.app.submitted ≡ with_call self.old.app.submitted call.now }
        ensures stays { StaysApp self.old.app self.new.app }
    {
        for _ in rt.forever() {
            match self.app.submit(call) {
                Ok(()) => return true,
                Err(SubmitRefusal::Full) => {}
                Err(_) => return false,
            }
            if !self.goes_on(stop) {
                return false;
            }
        }
        unreachable!()
    }

    /// Closes the end, once more wherever it is full. False if the threads are to stop before.
    fn close<R: Wait>(&mut self, rt: &R, stop: &AtomicBool) -> bool
        ensures submitted { IsTrue result
            → self.new.app.submitted ≡ with_close self.old.app.submitted }
        ensures stays { StaysApp self.old.app self.new.app }
    {
        for _ in rt.forever() {
            match self.app.close() {
                Ok(()) => return true,
                Err(CloseRefusal::Full) => {}
                Err(CloseRefusal::Closed) => return false,
            }
            if !self.goes_on(stop) {
                return false;
            }
        }
        unreachable!()
    }

    /// Reaps until the threads are to stop.
    fn reap_until<R: Wait>(&mut self, rt: &R, stop: &AtomicBool)
        ensures { OnlyReaps self.old.app self.new.app }
    {
        for _ in rt.forever() {
            if !self.goes_on(stop) {
                return;
            }
        }
    }

    /// Reaps completions for as long as this end sees some and there is memory for them, so that a call isn't tried anew for each of them, but no more than `MOST_REAPED`; or lets other threads run if this end sees none. False, and nothing is done, if the threads are to stop.
    fn goes_on(&mut self, stop: &AtomicBool) -> bool
        ensures { OnlyReaps self.old.app self.new.app }
    {
        if stop.load(Ordering::SeqCst) {
            return false;
        }
        let mut has_reaped = false;
        'reaping: for _ in 0..MOST_REAPED {
            if self.completions.len() >= self.completions.capacity() {
                break 'reaping;
            }
            let Some(completion) = self.app.reap() else {
                break 'reaping;
            };
            self.completions.push_reserved(completion);
            has_reaped = true;
        }
        if !has_reaped {
            thread::yield_now();
        }
        true
    }
}
