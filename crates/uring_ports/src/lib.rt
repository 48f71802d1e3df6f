//! What lies between the application's end and the dispatcher's: what both ask of it, as two ports of a pair, and the ports over lanes. The application's end stands over any port.
#![tactic(auto)]

mod app_end;
mod item;
mod ports;
mod pulled;
mod refusals;

// the ports over lanes
mod call_lane;
mod lane_memory;
mod lane_rests;
mod message;
mod port_lanes;

pub use app_end::AppEnd;
pub use item::Item;
pub use lane_memory::LaneMemory;
pub use lane_rests::take_undelivered;
pub use port_lanes::{AppLanes, KernelLanes, lane_ports, lane_ports_in};
pub use ports::{AppPort, KernelPort};
pub use pulled::{Pulled, Rests};
pub use refusals::{CloseRefusal, SubmitRefusal};
pub use uring_entry::{Cqe, Setup, Sqe};
