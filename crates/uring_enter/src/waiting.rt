//! What waits, what is looked at, and how a call sleeps.

// what a ring looks out for, and what is known of who waits
pub mod lookout;
pub mod sighting;
pub mod waiter;
pub mod watched;

// the epoll instance of those that wait, and calls of poll(2) and select(2)
pub mod enlisting;
pub mod joining;
pub mod lying;
pub mod selecting;

// pipes, and which polls are told of a write
pub mod hearing;
pub mod missed;
pub mod pipe_poll;
pub mod rivals;

// how a call sleeps, and how a sleep ends
pub mod jumping;
pub mod leaving;
pub mod sleeping;
pub mod sleeps;
