//! The drivers that serve the ports of a script: which of those that were handed in each port gets, how the ports are opened with them, and how they come back.
#![tactic(auto)]

mod ending;
mod finding;
mod hosted;
mod laws;
mod opening;
mod room;

pub use ending::{EndedPort, take_back};
pub use finding::{Lacking, find_drivers};
pub use hosted::Hosted;
pub use laws::all_drivers_come_back;
pub use no_memory::NoMemory;
pub use opening::{Unopened, open_ports};
pub use port_body::{Body, Parcel, PortEnds, PortOutlets};
pub use port_driver::{Driver, StartRefusal};
pub use room::PortRoom;
pub use script_plan::PortDecl;
