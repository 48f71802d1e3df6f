//! The text that traces, checks and plays share: lines as they are read, the tokens that entries and numbers are written as, and the text of a completion.
#![tactic(auto)]

// lines, as they are read
mod kept_line;
mod streams;
mod tokens;
mod trace_fault;

// tokens, and the entry that they spell
mod data_tokens;
mod entry_tokens;
mod flag_tokens;
mod forms;
mod hex_tokens;
mod number_tokens;
mod parts;

// how far a line fits the language, and what is wrong with it
mod flaw;
mod place;
mod reach;

// what is written
mod completion_text;
mod growth;
mod terms;
mod visible;

// laws of the definitions alone
pub mod laws;

pub use completion_text::{push_completion, push_completion_in};
pub use entry_tokens::spelled_entry;
pub use flaw::{push_flaw, push_flaw_in};
pub use forms::{Name, push_operation};
pub use growth::{
    TextMemory, push_bytes, push_data, push_hex, push_named, push_number, push_signed, push_text,
};
pub use kept_line::KeptLine;
pub use number_tokens::{spelled_long, spelled_number, spelled_signed};
pub use place::{Place, TokenKind, is_of_kind};
pub use reach::{Reach, entry_reach, kinds_reach};
pub use streams::{Calls, read_once, write_all};
pub use terms::{Term, push_terms};
pub use tokens::{is_name, split_pieces_in, split_tokens, split_tokens_in};
pub use trace_fault::TraceFault;
pub use visible::{push_visible, push_visible_in, push_visible_line, push_visible_line_in};
