//! The tables of registered files and buffers: what their slots hold, what a call or an operation makes of them, and when what was registered is gone.

pub mod holding;
pub mod listing;
pub mod lists;
pub mod placing;
pub mod registering;
pub mod table;
pub mod table_laws;
pub mod use_laws;
pub mod uses;
