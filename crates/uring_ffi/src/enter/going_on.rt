//! What is done for requests that go on or end, and in which order.

pub mod due_exports;
pub mod duty_exports;
pub mod following_exports;
pub mod putting_off_exports;
pub mod tried_exports;
