//! What the kernel's lists say of processors, locks and memory.

pub mod locks;
pub mod mapped;
pub mod processors;
pub mod texts;
