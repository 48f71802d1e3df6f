//! The completion ring as shared words.

pub mod ends;
pub mod reader;
pub mod table;
mod view;
pub mod writer;
