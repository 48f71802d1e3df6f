//! Pictures of a trace: the outstanding requests as a graph, a timeline of all requests, and a run as data and as a page.
#![tactic(auto)]

// the run of a trace that is drawn
mod accepted;
mod drawing;
mod moment;
mod timelines;
mod watching;

// what is drawn
mod form_text;
mod graph_text;
mod node_text;
mod pages;
mod rows;

// laws of the definitions alone
pub mod laws;

pub use drawing::{graph, graph_in};
pub use pages::{
    Form, apart_page, apart_page_in, made_steps, made_steps_in, page, page_in, recorded_page,
    recorded_page_in,
};
pub use timelines::{timeline, timeline_in};
pub use uring_text::TraceFault;
pub use watching::{Told, Watcher, watch_all, watch_byte};
