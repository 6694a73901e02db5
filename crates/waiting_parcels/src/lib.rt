//! Tasks that a port took and didn't handle yet.
//!
//! A task waits where the port is busy and it is a command that isn't forced, as the Erlang/OTP manual of erl_driver says of
//! `set_busy_port` and that of `erlang` of `port_command`, and where an earlier task of its sender waits, so that each
//! sender's tasks keep their order. Which task goes first is said of the list alone: the first in the order in which they
//! came that has no earlier one of its sender, and isn't a command, or is a forced one, or finds the port not busy.
//!
//! A task lies in the list as it lay in the port's lane: in a parcel, with the weight of its bytes where it is a command.
#![tactic(auto)]

mod arrival;
mod list;
mod queues;

pub use list::WaitingList;
pub use no_memory::NoMemory;
pub use port_lanes::Parcel;
pub use task_queue::Item;
