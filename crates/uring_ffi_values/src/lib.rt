//! What crosses between a program in C and the proved calls: values as words, the places that C holds, and each call that asks for memory, by any memory. `uring_ffi` exports these under the names of the header.
#![tactic(auto)]

mod boxes;
mod core_words;
mod cores;
mod layer_words;
mod machines;
mod outcomes;
mod traces;
mod volumes;

pub use boxes::{box_memory, parts, slot};
pub use core_words::{
    answer_words, completion_words, count_words, cuts, operation_words, set_up_words, state_words,
    taken_words, why_words,
};
pub use cores::{core_calls, core_memory, core_place, whole_call_memory, whole_calls};
pub use layer_words::{course_words, enter_words, time_words, wait_words};
pub use machines::{
    crash_machine_calls, crash_machine_memory, crash_machine_place, machine_calls, machine_memory,
    machine_place,
};
pub use outcomes::{outcome_list, outcomes_calls, outcomes_memory, outcomes_place};
pub use traces::{flag_letters, setup_lines, trace_lines, traced};
pub use volumes::{volume_calls, volume_memory, volume_place};
