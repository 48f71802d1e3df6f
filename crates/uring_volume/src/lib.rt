//! What a power failure leaves of a file: which images may be found, by the writes and syncs that were made, and which writes are safe. It knows nothing of rings and requests.
#![tactic(auto)]

// what happened to a file
mod event;
mod growth;
mod kept;
mod past;
mod standing;
mod told;
mod volume;

// what reads show, and what a crash leaves
mod crash;
mod fold;
mod order;
mod show;

// each image once
mod listing;
mod ways;

// laws of the definitions alone
pub mod laws;

pub use event::{Piece, SyncRange};
pub use kept::Kept;
pub use volume::{BeginError, ImagesError, Volume};
