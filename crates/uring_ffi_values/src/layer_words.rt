//! Calls of io_uring_enter(2), the course of requests, times and waits, as words that C can read and write.

pub mod course_words;
pub mod enter_words;
pub mod time_words;
pub mod wait_words;
