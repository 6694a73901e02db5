//! The job of a process in a run on threads: it makes the process's steps one after another, waits where a step waits, goes on where a busy port has suspended it, and
//! tells each port of its end.
//!
//! It knows of the ports their lanes, their words and their homes, and of their bodies nothing. Whoever waits here looks whether the run was stopped, and pauses so that the
//! wait takes next to no processor time.
#![tactic(auto)]

mod action;
mod calling;
mod ending;
mod halt;
mod job;
mod log;
mod running;
mod seats;
mod taking;
mod waiting;

pub use job::{EndedProcess, JobEnd, ProcessEnd, ProcessJob, ProcessWork};
pub use no_memory::NoMemory;
pub use process_end::{ProcEnd, ProcParts};
pub use seats::ProcessSeats;
