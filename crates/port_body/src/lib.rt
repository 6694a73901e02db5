//! A port whole: its lane, the tasks that wait, and turns.
//!
//! A port takes tasks out of its lane, in the order of each sender, and brings each to its row: at once, or after it waited because the port was busy or
//! an earlier task of its sender waited. `LanePort` makes these steps. `Body` makes turns of them: what always holds of it is `AlwaysHolds`, also once a step
//! found no memory. It then is broken: it makes no step any more, and its driver can still be stopped.
#![tactic(auto)]

mod body;
mod ending;
mod lane_port;
mod opening;
mod parts;
mod stepping;
mod turning;

pub use body::Body;
pub use parts::{BodyEnd, BodyParts};
pub use port_driver::{Driver, StartRefusal};
pub use port_lanes::Parcel;
pub use port_model::{NoMemory, Sender};
pub use port_sched::Turn;
pub use recorded_port::{PortEnd, PortEnds, PortOutlets, PortParts, PortPlace, RecordedPort};
