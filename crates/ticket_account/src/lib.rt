//! The account of a run's tickets, once the seats of all its jobs are joined.
//!
//! `port_sched` says of each scheduler what became of its tickets. What is said here is how these accounts add up, as contracts of functions that do nothing.
#![tactic(auto)]

mod gathering;
mod homes;
mod laws;
mod opening;

pub use gathering::gather;
pub use laws::{bodies_keep_their_names, each_ticket_once_at_the_end, seats_add_up_at_each_join};
pub use no_memory::NoMemory;
pub use opening::{Opened, RunSize, open_run};
