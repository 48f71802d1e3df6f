//! The language of a trace: steps as lines of text, each with its answer, and the run of such lines from a reader to a writer.
#![tactic(auto)]

// what a line asks for, and what is wrong with it
mod flaws;
mod questions;
mod step_lines;

// what is answered
mod answer_text;
mod chosen;
mod reason_text;
mod requests_text;
mod shown_text;

// the runs over streams
mod explain_loop;
mod explainer;
mod session;
mod trace_loop;

// laws of the definitions alone
pub mod laws;

pub use answer_text::{push_answer, push_answer_in};
pub use chosen::chosen_text;
pub use explain_loop::{explain, explain_in};
pub use explainer::Explainer;
pub use flaws::{Language, push_line_flaw, push_line_flaw_in};
pub use reason_text::{
    push_found, push_found_in, push_since, push_since_in, push_why, push_why_in,
};
pub use step_lines::{read_step, read_step_in, spells_in, step_name};
pub use trace_loop::{trace, trace_in};
pub use uring_text::TraceFault;
