//! The ties of a port to processes: its owner, the processes that are linked to it, those that have ended, and its
//! monitors.
//!
//! `Links` is the table of one port. It is told of each signal that the port handles or finds late, and is then what the
//! history of the port says (`Ties` of `port_history`). It also answers for which reason a signal closes the port, and what
//! the end of the port sends. The rules are those of the Erlang/OTP manual of `erlang` (`port_connect`, `link`, `monitor`)
//! and of the Erlang Reference Manual's chapter Ports and Port Drivers.
//!
//! Nothing here calls a driver or puts mail into a mailbox.
#![tactic(auto)]

mod ends;
mod links;
mod monitors;
mod post;
mod signals;

pub use links::Links;
pub use port_history::{Mail, Monitor, NoMemory, Reason, Sender, Signal};
pub use post::Post;
