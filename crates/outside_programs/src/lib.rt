//! Programs of the machine behind the traits of `outside`: a child with piped input and output, and the
//! readiness of the events of such children.
//!
//! Each child has two threads: one blocks on its output, and one writes to its input. Each tells the poll
//! set when there is something to fetch, or when the input takes more. So a program that doesn't read and
//! one that doesn't write cost no time of the caller's. One more thread makes these as children are
//! started.
//!
//! This crate tells nothing of what a program does: that is what the machine does.
#![tactic(auto)]

mod counts;
mod ends;
mod growing;
mod pauses;
mod pipe_server;
mod real_child;
mod real_poll;
mod real_spawner;
mod threads;

pub use pipe_server::PipeServer;
pub use real_child::RealChild;
pub use real_poll::RealPoll;
pub use real_spawner::RealSpawner;
