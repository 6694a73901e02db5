//! What a port is after the rows of its history, but for its driver, as a reader of the history keeps it; and whether the next row keeps
//! each law of histories but that of effects.
//!
//! It takes any rows, also those that no port could write. A row is judged on the state before it, and taken in once it is known to keep the
//! laws. What a driver did is told to it: for which reason a row closes the port, and whether it stops the driver.
#![tactic(auto)]

mod laws;
mod rows;
mod senders;
mod state;

pub use history_tables::{
    EventTable, JobTable, ListedTasks, PortMarks, PortTies, SenderCounts, WatchedProcesses,
};
pub use no_memory::NoMemory;
pub use port_model::{Effect, MarkKind, Reason, Row, Sender, Signal, Task};
pub use rows::RowEnd;
pub use state::HistoryState;
