//! Lists of outcomes: the place of one, and the calls that are made on it.

pub mod outcome_list;
pub mod outcomes_calls;
pub mod outcomes_memory;
pub mod outcomes_place;
