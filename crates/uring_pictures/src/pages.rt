//! A run as data and as a page: what a trace shows as JSON, and the same in one HTML file that draws it.

mod apart;
mod change_text;
mod changes;
mod checked;
mod line_parts;
mod recorder;
mod requests;
mod submission;
mod viewer;
mod watching;

pub use apart::{made_steps, made_steps_in};
pub use checked::{apart_page, apart_page_in, recorded_page, recorded_page_in};
pub(crate) use submission::push_value;
pub use watching::{Form, page, page_in};
