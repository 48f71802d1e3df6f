//! Which calls of io_uring_register(2) are made, and by whom, for C: functions of `c/include/wulgach_register.h`.
ghost use Rattle.std.specs.Prelude.{◌≡◌, List, [], ◌∷◌};
ghost use Rattle.uring_register.specs.Rings.Issuing.{Doing, SetUp, Enabled, KeepsIssuer};
ghost use Rattle.uring_register.specs.Rings.Issuing as issuing;
ghost use Rattle.uring_register.specs.Rings.Telling.{Telling, Registered, Unregistered, KeepsEventfd};
ghost use Rattle.uring_register.specs.Rings.Telling as telling;
ghost use Rattle.uring_register.specs.Calls.Calling as spec;
ghost use Rattle.uring_ffi.specs.Registered.RegisterForm.{argument_fault_of, content_fault_of};

use uring_register::{
    Caller, Content, Eventfd, Issuer, Probe, argument_fault, call_of, calling_fault, content_fault,
    probe_of, tells_async_alone,
};

/// The fault of who makes the call of a number on what, or 0.
#[unsafe(no_mangle)]
pub extern "C" fn wulgach_calling_fault(code: u32, caller: &Caller) -> i32
    ensures { result ≡ spec.calling_fault code caller.now }
{
    calling_fault(code, caller)
}

/// The fault of a call's argument and its count, before anything is read; or 0. -22 of a call that isn't served.
#[unsafe(no_mangle)]
pub extern "C" fn wulgach_argument_fault(code: u32, has_argument: bool, count: u32) -> i32
    ensures { result ≡ argument_fault_of (spec.call_of code) has_argument count }
{
    match call_of(code) {
        Some(call) => argument_fault(call, has_argument, count),
        None => -22,
    }
}

/// The fault of what a call has read, or couldn't read; or 0. -22 of a call that isn't served.
#[unsafe(no_mangle)]
pub extern "C" fn wulgach_content_fault(code: u32, is_read: bool, content: &Content) -> i32
    ensures { result ≡ content_fault_of (spec.call_of code) is_read content.now }
{
    match call_of(code) {
        Some(call) => content_fault(call, is_read, content),
        None => -22,
    }
}

/// Writes what a probe tells in front of its rows, which is asked for so many.
#[unsafe(no_mangle)]
pub extern "C" fn wulgach_probe_of(count: u32, probe: &mut Probe)
    ensures { probe.new ≡ spec.probe_of count }
{
    *probe = probe_of(count);
}

/// A thread sets a ring up, with these flags, under a strict layer or not.
#[unsafe(no_mangle)]
pub extern "C" fn wulgach_issuer_begin(
    issuer: &mut Issuer,
    thread: u32,
    flags: u32,
    is_strict: bool,
)
    ensures { (log : List Doing) → KeepsIssuer (SetUp thread flags is_strict ∷ log) issuer.new }
{
    *issuer = Issuer::begin(thread, flags, is_strict);
}

/// A thread has enabled the ring.
#[unsafe(no_mangle)]
pub extern "C" fn wulgach_issuer_enable(issuer: &mut Issuer, thread: u32)
    ensures { (log : List Doing) → KeepsIssuer log issuer.old → KeepsIssuer (Enabled thread ∷ log) issuer.new }
{
    issuer.enable(thread);
}

/// Whether a call of io_uring_register(2) by a thread is refused.
#[unsafe(no_mangle)]
pub extern "C" fn wulgach_issuer_is_another(issuer: &Issuer, thread: u32) -> bool
    ensures { (log : List Doing) → KeepsIssuer log issuer.now → result ≡ issuing.is_of_another log thread }
{
    issuer.is_of_another(thread)
}

/// The fault of a call of io_uring_enter(2) by a thread, which submits so many entries and asks for completions or not; or 0.
#[unsafe(no_mangle)]
pub extern "C" fn wulgach_entering_fault(
    issuer: &Issuer,
    thread: u32,
    to_submit: u32,
    gets: bool,
) -> i32
    ensures { (log : List Doing) → KeepsIssuer log issuer.now
        → result ≡ issuing.entering_fault log thread to_submit gets }
{
    issuer.entering_fault(thread, to_submit, gets)
}

/// Whether the eventfd that the call of a number registers is told of what ends asynchronously alone.
#[unsafe(no_mangle)]
pub extern "C" fn wulgach_tells_async_alone(code: u32) -> bool
    ensures { result ≡ spec.tells_async_alone code }
{
    tells_async_alone(code)
}

/// A ring has no eventfd.
#[unsafe(no_mangle)]
pub extern "C" fn wulgach_eventfd_begin(eventfd: &mut Eventfd)
    ensures { KeepsEventfd [] eventfd.new }
{
    *eventfd = Eventfd::begin();
}

/// The fault of registering one, or 0.
#[unsafe(no_mangle)]
pub extern "C" fn wulgach_eventfd_registering_fault(
    eventfd: &Eventfd,
    is_read: bool,
    is_open: bool,
    is_eventfd: bool,
) -> i32
    ensures { (log : List Telling) → KeepsEventfd log eventfd.now
        → result ≡ telling.registering_fault log is_read is_open is_eventfd }
{
    eventfd.registering_fault(is_read, is_open, is_eventfd)
}

/// One is registered.
#[unsafe(no_mangle)]
pub extern "C" fn wulgach_eventfd_register(eventfd: &mut Eventfd, is_async: bool)
    ensures { (log : List Telling) → KeepsEventfd (Registered is_async ∷ log) eventfd.new }
{
    eventfd.register(is_async);
}

/// The fault of unregistering it, or 0.
#[unsafe(no_mangle)]
pub extern "C" fn wulgach_eventfd_unregistering_fault(eventfd: &Eventfd) -> i32
    ensures { (log : List Telling) → KeepsEventfd log eventfd.now → result ≡ telling.unregistering_fault log }
{
    eventfd.unregistering_fault()
}

/// It is unregistered.
#[unsafe(no_mangle)]
pub extern "C" fn wulgach_eventfd_unregister(eventfd: &mut Eventfd)
    ensures { (log : List Telling) → KeepsEventfd (Unregistered ∷ log) eventfd.new }
{
    eventfd.unregister();
}

/// Whether it is told of a completion that it is to be told of, where the completion ring's flags are these.
#[unsafe(no_mangle)]
pub extern "C" fn wulgach_eventfd_tells(eventfd: &Eventfd, cq_flags: u32) -> bool
    ensures { (log : List Telling) → KeepsEventfd log eventfd.now → result ≡ telling.tells log cq_flags }
{
    eventfd.tells(cq_flags)
}

/// What is added to it for so many completions that it is to be told of and that were shown together.
#[unsafe(no_mangle)]
pub extern "C" fn wulgach_eventfd_added(
    eventfd: &Eventfd,
    cq_flags: u32,
    told: u64,
    has_room: bool,
) -> u64
    ensures { (log : List Telling) → KeepsEventfd log eventfd.now
        → result ≡ telling.added log cq_flags told has_room }
{
    eventfd.added(cq_flags, told, has_room)
}

/// Whether a call may leave what can go on without waiting, on a ring with a thread of its own or without.
#[unsafe(no_mangle)]
pub extern "C" fn wulgach_eventfd_may_leave(eventfd: &Eventfd, has_thread: bool) -> bool
    ensures { (log : List Telling) → KeepsEventfd log eventfd.now → result ≡ telling.may_leave log has_thread }
{
    eventfd.may_leave(has_thread)
}
