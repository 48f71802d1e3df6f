//! The course of one request: when it starts, when it can be finished, what a cancel or an update makes of it, and with which result it ends.

// what happens to a request, and how it ends
pub mod act;
pub mod course;
pub mod outcome;

// its start, and whether it can be finished
pub mod glance;
pub mod ready;
pub mod starting;

// cancels and updates
pub mod afresh;
pub mod cancelling;

// what is chosen
pub mod fault;
pub mod ways;

// laws of the definitions alone
pub mod course_laws;
