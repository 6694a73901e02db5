//! What a reader of a port's history keeps of it, row by row, so that it can tell whether the next row keeps the laws of histories: how
//! many tasks each sender has rows of, who is suspended, the owner and the links of the port, the marks, the events of its driver and its
//! jobs.
//!
//! Each table is told of a row, and is then what the history says (`State` of `port_history`), for every list of rows. A look-up takes time
//! that grows at most with the logarithm of what the table holds.
#![tactic(auto)]

mod counts;
mod events;
mod jobs;
mod key;
mod listed;
mod marks;
mod ties;
mod watched;

pub use counts::SenderCounts;
pub use events::EventTable;
pub use jobs::JobTable;
pub use listed::ListedTasks;
pub use marks::PortMarks;
pub use no_memory::NoMemory;
pub use port_model::{Dir, Effect, MarkKind, Reason, Sender, Signal};
pub use ties::PortTies;
pub use watched::WatchedProcesses;
