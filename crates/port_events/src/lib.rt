//! The events of a port's driver, as the port's history tells them.
//!
//! `PortEvents` keeps which events a driver uses, in which directions each is selected and armed, and which of them wait for the poller,
//! after `driver_select` of the Erlang/OTP manual of erl_driver. It is told of each task that the port handles or finds late, with the
//! effects of its callbacks, and is then what the history of the port says (`events_after` of `port_history`). It puts what a row asks
//! of the poller into the poller's lane, and answers for which events the driver's `stop_select` is to be called.
//!
//! Nothing here calls a driver, waits for an event or takes from the lane.
#![tactic(auto)]

mod effects;
mod fault;
mod port_events;
mod rows;
mod sweeps;
mod used_events;

pub use fault::{EventFault, StartFault};
pub use no_memory::NoMemory;
pub use port_events::PortEvents;
pub use port_model::{Dir, Effect, Signal};
pub use ready_select::PollAsk;
pub use rows::AfterTask;
pub use task_queue::SendEnd;
