//! Set-ups, steps and answers as lines of a trace.

pub mod flag_letters;
pub mod setup_lines;
pub mod trace_lines;
pub mod traced;
