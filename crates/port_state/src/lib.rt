//! What a port is after its rows, as a program keeps it: its ties to processes, the driver that serves it, why it closed, and the marks that are due.
//!
//! `PortState` is told of each task that the port handles or finds late, and is then what the history of the port says (`State` of
//! `port_history`). It makes no rows and puts no mail: it answers what a row tells, and what the closing of the port sends.
#![tactic(auto)]

mod late;
mod marks;
mod opening;
mod served;
mod serving;
mod state;

pub use port_model::{Effect, Items, MarkKind, NoMemory, Outside, Reason, Sender, Signal};
pub use port_service::{Config, Driver, StartRefusal};
pub use served::Served;
pub use state::PortState;
