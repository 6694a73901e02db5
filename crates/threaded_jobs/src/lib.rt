//! The jobs of a run beside its schedulers as one kind: the processes, the workers, the poller, and the one that tells of the end.
//!
//! They are put into one list for `port_sched::run`, and taken apart once it is over. None of this takes memory: the lists are made before.
#![tactic(auto)]

mod adding;
mod beside;
mod ended;
mod jobs;
mod kinds;
mod laws;
mod parting;

pub use beside::run_jobs_beside;
pub use ended::{EndedJobs, Stop};
pub use jobs::{JobRoom, RunJobs, take_apart};
pub use kinds::RunJob;
pub use laws::seats_go_on;
pub use parting::{FinishLeft, PollerLeft, RunEnds, SeatRoom, WorkerLeft};
pub use process_job::{EndedProcess, ProcParts, ProcessJob, ProcessSeats};
