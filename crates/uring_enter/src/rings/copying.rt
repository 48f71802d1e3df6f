//! By which ways memory of the application's is copied, so that what can't be read or written is a fault of the call, and not the end of the program. Our own rule; process_vm_readv(2), pipe(7).

ghost use Rattle.std.specs.Prelude.{◌≡◌};
ghost use Rattle.uring_enter.specs.Rings.Copying as spec;

/// A way to copy.
#[derive(Clone, Copy, Drop)]
pub enum Way {
    /// By a call that copies another process's memory, here the process's own: process_vm_readv(2), or process_vm_writev(2).
    Process,

    /// Through a pipe.
    Pipe,

    /// As it comes.
    Plain,
}

/// How a copy goes on.
#[derive(Clone, Copy, Drop)]
pub enum CopyOnto {
    Goes(Way),
    IsCopied,

    /// What is copied can't be read, or not be written where it is to stand.
    Fails,
}

/// How a copy of so many bytes goes on after this way, which copied so many, or came to this error. `None`: at first.
pub fn next_way(last: Option<Way>, copied: i64, size: u64) -> CopyOnto
    ensures { result ≡ spec.next_way last copied size }
{
    match last {
        None => CopyOnto::Goes(Way::Process),
        Some(_) if copied >= 0 && copied as u64 == size => CopyOnto::IsCopied,
        Some(_) if copied >= 0 || copied == -14 => CopyOnto::Fails,
        Some(way) => after_way(way),
    }
}

fn after_way(way: Way) -> CopyOnto
    ensures { result ≡ spec.after_way way }
{
    match way {
        Way::Process => CopyOnto::Goes(Way::Pipe),
        Way::Pipe => CopyOnto::Goes(Way::Plain),
        Way::Plain => CopyOnto::Fails,
    }
}
