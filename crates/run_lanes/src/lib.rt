//! The lanes and words of a run: made once before it, dealt to those who use them, and taken in after it.
#![tactic(auto)]

mod columns;
mod dealing;
mod emptying;
mod keyed;
mod laws;
mod making;
mod opening;
mod parts;
mod size;
mod taking_in;
mod words;

pub use columns::transposed;
pub use dealing::next_of;
pub use emptying::empty_lanes;
pub use laws::all_of_each_end_is_taken;
pub use making::{lane_ends, lanes};
pub use no_memory::NoMemory;
pub use opening::open_lanes;
pub use parts::{FinishEnds, PollerLanes, PortLanes, ProcessLanes, RunLanes, WorkerLanes};
pub use size::LaneSize;
pub use taking_in::{empty_lane, take_all_in, take_each_in};
