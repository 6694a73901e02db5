//! The queue of bytes that a driver keeps for later, as the driver queue of the Erlang/OTP manual of
//! erl_driver: what is to be written and couldn't be yet.
//!
//! It is for bytes that come in at either end and leave at the front, in other portions than they came
//! in: every call moves or shares segments, and no byte that is queued is copied again. It isn't for
//! bytes that are searched or edited in place.
#![tactic(auto)]

mod fault;
mod pieces;
mod queue;

pub use fault::{DeqPast, EnqFault};
pub use no_memory::NoMemory;
pub use queue::DriverQueue;
