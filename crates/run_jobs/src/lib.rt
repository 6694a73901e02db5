//! The jobs of a run that are no process: the workers, which work what the drivers of ports hand over, the poller, which tells the ports which events are ready, and one
//! that tells these of the end of the run.
//!
//! A worker and the poller put tasks into the lanes of ports by ends of their own, and wake the port after each. A job that finds no memory stops the run.
#![tactic(auto)]

mod finish;
mod poller;
mod stopping;
mod telling;
mod watch;
mod worker;

pub use finish::{FinishEnd, FinishJob};
pub use no_memory::NoMemory;
pub use poller::{PollerEnd, PollerJob};
pub use watch::Watch;
pub use worker::{WorkerEnd, WorkerJob};
