//! A port that keeps its history: the rows of its tasks, the mail that they send, the marks of its word STAT, the bytes that it takes out of
//! its word MSGQ, and the senders that it suspends.
//!
//! `RecordedPort` takes in one task at a time, which must be the next one of its sender. It has the port handle the task or find it late,
//! writes its row, sends its mail, and marks what changed. What it did is then what its history says, and the history is lawful
//! (`IsSettled`). It takes nothing from a lane and has no task wait.
#![tactic(auto)]

mod fixed;
mod opening;
mod parts;
mod recorded_port;
mod resuming;
mod rows;
mod taking;

pub use parts::{PortEnd, PortOutlets, PortParts};
pub use port_driver::Driver;
pub use port_lanes::Parcel;
pub use port_mail::Mailboxes;
pub use port_model::{Effect, Journal, MarkKind, NoMemory, Row, Sender, Signal, Task};
pub use port_suspension::Suspension;
pub use port_words::busy::PortSeat;
pub use recorded_port::RecordedPort;
pub use served_port::{PortEnds, PortPlace, Served, ServedPort};
