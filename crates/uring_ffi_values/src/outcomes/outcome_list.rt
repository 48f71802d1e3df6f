//! What a walk has found of all that calls may come to.

use uring_outcomes::Ending;

/// What was found: each once, and whether these are all.
#[derive(Drop)]
pub struct OutcomeList {
    pub endings: Vec<Ending>,
    pub is_all: bool,
}
