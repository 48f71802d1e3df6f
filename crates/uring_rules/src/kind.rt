//! The two dispatchers.

use uring_dispatch::Dispatch;
use uring_linux::LinuxDispatch;

/// A dispatcher by one of the two rules.
#[derive(Drop)]
pub(crate) enum DispatcherKind {
    /// By the manual pages'.
    Manual(Dispatch),

    /// By Linux's.
    Linux(LinuxDispatch),
}
