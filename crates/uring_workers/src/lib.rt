//! Workers, each with files of its own, and the lanes between them and the dispatcher: jobs go out, results come back.
#![tactic(auto)]

mod gate;
mod job;
mod place;
mod sends;
mod work_lanes;
mod worker;

pub use gate::{Gate, Open};
pub use job::{Job, JobResult};
pub use place::{place_of, place_of_file};
pub use sends::{all_show_room, send};
pub use uring_files::{FileState, Files};
pub use work_lanes::{LANE_LENGTH, WorkLanes, open_all_in};
pub use worker::{Worked, Worker};
