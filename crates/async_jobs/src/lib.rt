//! Jobs that a driver hands over, to be worked beside its port: after `driver_async` and `ready_async` of the Erlang/OTP manual
//! of erl_driver.
//!
//! A pool has a lane for each worker, and a job's key picks its worker. So jobs of one key are worked one after another, in the
//! order in which the pool submits them, and jobs of two keys may be worked beside each other. Several pools, one for each port,
//! may have ends in the lanes of the same workers. A pool starts no thread and waits for nothing: who holds a worker's end makes
//! its turns.
#![tactic(auto)]

mod codes;
mod job;
mod laws;
mod pool;
mod worker;

pub use codes::work;
pub use io_vector::Piece;
pub use job::{Done, Job, WorkItem};
pub use laws::jobs_of_one_key_in_order;
pub use no_memory::NoMemory;
pub use pool::Pool;
pub use task_queue::{SendEnd, TakeEnd};
pub use worker::Worked;
