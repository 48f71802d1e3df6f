//! Everything that calls may come to, as text: the outcomes line by line, and claims about them.
#![tactic(auto)]

mod calls;
mod claims;
mod crashes;
mod form;
mod judging;
mod lines;
mod listing;
mod orders;
mod parts;
mod wanted;

pub use claims::Claim;
pub use crashes::{
    CrashesJudged, CrashesListed, MOST_IMAGES, judge_crashes, judge_crashes_in, list_crashes,
    list_crashes_in,
};
pub use form::Form;
pub use judging::{Chosen, Judged, choose, choose_in, judge, judge_in};
pub use lines::{line_of, line_of_in};
pub use listing::{list, list_in};
pub use uring_outcomes::Ending;
pub use uring_play_text::PlayFault;
pub use wanted::{parts_of_line, parts_of_line_in};
