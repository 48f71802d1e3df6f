//! Set-ups, answers and what is read off a core or a machine, as words that C can read and write.

pub mod answer_words;
pub mod completion_words;
pub mod count_words;
pub mod cuts;
pub mod operation_words;
pub mod set_up_words;
pub mod state_words;
pub mod taken_words;
pub mod why_words;
