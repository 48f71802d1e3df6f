//! What is done for requests that go on or end, and in which order.

pub mod carrying;
pub mod due;
pub mod duties;
pub mod following;
pub mod putting_off;
pub mod tried;
