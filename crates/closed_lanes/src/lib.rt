//! How the lanes of a run are closed that nobody stopped: all ends are given back, the ports come to rest, and their drivers are back. Then the mail that is left
//! in the mailboxes is taken, and the seats of the ports' words are joined.
#![tactic(auto)]

mod closing;
mod columns;
mod joining;
mod parting;

pub use closed_ports::{Body, Driver, Hosted};
pub use closing::{ClosedPort, LaneEnds, close_lanes};
pub use joining::{PortPeers, ProcessPeers, join_peers};
