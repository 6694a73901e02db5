//! The jobs of one port: which its driver submitted, and which were told done.
//!
//! A driver submits a job as by `driver_async` of the Erlang/OTP manual of erl_driver, and is told of it by `ready_async`.
//! `PortJobs` puts the jobs of a row's effects into the lanes of the workers, and keeps as much of them as a port has to know:
//! how many there were, since they are numbered from 0, and whose end was told. It is then what the port's history says
//! (`Agrees`).
//!
//! It calls no driver and makes no rows, and takes nothing from a worker.
#![tactic(auto)]

mod fault;
mod jobs;
mod numbers;

pub use async_jobs::Pool;
pub use fault::SubmitFault;
pub use jobs::PortJobs;
pub use no_memory::NoMemory;
pub use port_model::{Effect, Signal};
