//! The course of one request: when it starts, whether it has to wait, and with which result it ends.

pub mod course_exports;
pub mod keeping_exports;
pub mod starting_exports;
pub mod wait_exports;
