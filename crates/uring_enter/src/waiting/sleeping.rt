//! When a sleep of a call isn't begun after all, and what came of a wait. io_uring_enter(2), errors.

ghost use Rattle.std.specs.Prelude.{◌≡◌};
ghost use Rattle.uring_enter.specs.Waiting.Sleeping as spec;
ghost use Rattle.uring_enter.specs.Waiting.Sleeping.{NapsAlikeUnasked};

use uring_operations::{Needs, RequestStanding, polls};

/// Whether a sleep begins.
#[derive(Clone, Copy, Drop)]
pub enum Beginning {
    /// It fails, with the fault.
    Fails,

    /// It needn't: something may go on.
    Wakes,

    Sleeps,
}

/// What is known after a wait.
#[repr(C)]
#[derive(Clone, Copy, Drop)]
pub struct Waited {
    /// What the sleep came to, by its system call: an error number's negative, or how many descriptors have ended it.
    pub result: i32,

    /// There was nothing to wait for, and it didn't sleep.
    pub is_never: bool,

    /// Another ring has left a message.
    pub has_messages: bool,

    /// A completion may be posted that belongs to no end of a request.
    pub may_post: bool,

    /// The caller's time is over.
    pub is_over: bool,

    /// That is its least time, after which one completion is enough.
    pub is_least: bool,
}

/// What came of a wait.
#[derive(Clone, Copy, Drop)]
pub enum Outcome {
    /// Something may go on.
    Woken,

    /// The caller's time is over.
    TimedOut,

    /// A signal came.
    Interrupted,

    /// Nothing that is awaited can ever come.
    Endless,

    /// The sleep failed, with what it came to.
    Failed,

    /// The caller's least time is over.
    LeastOver,
}

/// Whether a timeout fires after a wait, if its time is over.
pub fn fires_after(waited: &Waited) -> bool
    ensures { result ≡ spec.fires_after waited.now }
{
    !waited.is_never && waited.result >= 0
}

/// What a sleep came to, where its system call came to this: in the process that began it, or in a child that was forked meanwhile. Our own rule, of a child.
pub fn came_to(res: i32, is_child: bool) -> i32
    ensures { result ≡ spec.came_to res is_child }
{
    if is_child { -4 } else { res }
}

/// Whether a sleep is by poll(2) whose epoll_pwait2(2) came to this: the kernel hasn't that, or a filter refuses it. Our own rule.
pub fn sleeps_by_poll(came: i32) -> bool
    ensures { result ≡ spec.sleeps_by_poll came }
{
    came == -38 || came == -1
}

/// Whether select(2) is asked in the place of a poll(2) that came to this: it was asked of more descriptors than the process may have. poll(2), EINVAL.
pub fn asks_select(came: i32) -> bool
    ensures { result ≡ spec.asks_select came }
{
    came == -22
}

/// Whether a sleep begins whose arguments have this fault, or 0, and before which a poll was told, or none.
pub fn beginning_of(fault: i32, is_told: bool) -> Beginning
    ensures { result ≡ spec.beginning_of fault is_told }
{
    if fault < 0 {
        Beginning::Fails
    } else if is_told {
        Beginning::Wakes
    } else {
        Beginning::Sleeps
    }
}

/// Whether a sleep naps for a request that may have to wait, and polls its descriptor not: it has none; or it was carried out so often in vain, once right after the other though its descriptor showed ready each time, and shows ready still.
fn naps_for(needs: &Needs, vain: u32, is_ready: bool) -> bool
    ensures { result ≡ spec.naps_for needs.now vain is_ready }
{
    !needs.needs_file || vain >= 2 && is_ready
}

/// What a sleep does for a request that runs.
#[repr(C)]
#[derive(Clone, Copy, Drop)]
pub struct SleptFor {
    /// How often the request was carried out in vain, as far as that counts from now on.
    pub vain: u32,

    /// Its descriptor is polled.
    pub is_polled: bool,

    /// The sleep is a nap.
    pub naps: bool,
}

/// Whether it matters to that which a sleep does for a request whether its descriptor shows ready.
pub fn asks_before_nap(needs: &Needs, vain: u32) -> bool
    ensures { result ≡ spec.asks_before_nap needs.now vain }
{
    needs.needs_file && vain >= 2
}

/// What a sleep does for a request that runs, was carried out so often in vain, whose descriptor shows ready or doesn't, and of whose socket a poll(2) doesn't tell that it was shut down for writing, or does.
pub fn slept_for(
    standing: &RequestStanding,
    needs: &Needs,
    vain: u32,
    is_ready: bool,
    asks_broken: bool,
) -> SleptFor
    ensures { result ≡ spec.slept_for standing.now needs.now vain is_ready asks_broken }
{
    let naps = naps_for(needs, vain, is_ready);
    let is_polled = polls(standing) && !naps;
    SleptFor {
        vain: vain_after(needs, vain, is_ready),
        is_polled,
        naps: polls(standing) && (naps || asks_broken),
    }
}

/// How often a request was carried out in vain, as far as that counts after a look at its descriptor.
fn vain_after(needs: &Needs, vain: u32, is_ready: bool) -> u32
    ensures { result ≡ spec.vain_after needs.now vain is_ready }
{
    if asks_before_nap(needs, vain) && !is_ready {
        0
    } else {
        vain
    }
}

/// Whether a sleep can be woken by whatever it waits for: it has a descriptor by which another thread wakes it, or hasn't, and naps for a request, or for none.
pub fn can_be_woken(has_descriptor: bool, naps: bool) -> bool
    ensures { result ≡ spec.can_be_woken has_descriptor naps }
{
    has_descriptor && !naps
}

/// What a sleep does for a request is the same, whether its descriptor shows ready or not, where it isn't asked.
pub fn naps_alike_unasked()
    ensures { NapsAlikeUnasked }
{}

/// What came of a wait.
pub fn outcome_of(waited: &Waited) -> Outcome
    ensures { result ≡ spec.outcome_of waited.now }
{
    if waited.is_never {
        return unless_message(waited.has_messages && waited.may_post);
    }
    if waited.result == -4 {
        Outcome::Interrupted
    } else if waited.result < 0 {
        Outcome::Failed
    } else if waited.is_over {
        over(waited.is_least)
    } else {
        Outcome::Woken
    }
}

/// What came of a wait for nothing, if a message can be posted or none.
fn unless_message(can_post: bool) -> Outcome
    ensures { result ≡ spec.unless_message can_post }
{
    if can_post {
        Outcome::Woken
    } else {
        Outcome::Endless
    }
}

/// What came of a wait that one of the caller's times ended: the least time, or its limit.
fn over(is_least: bool) -> Outcome
    ensures { result ≡ spec.over is_least }
{
    if is_least {
        Outcome::LeastOver
    } else {
        Outcome::TimedOut
    }
}
