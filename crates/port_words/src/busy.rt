//! The two words by which a port and its senders tell each other how busy the port is.
//!
//! STAT is written by the port alone: it counts the marks that the port made, and says whether the port is busy and whether it is closed. MSGQ counts the bytes of the
//! commands on their way to the port, and its period says whether the message queue is busy. Every sender has a seat, which may cross threads; a command
//! carries a weight, by which its bytes are taken away again. At the end of a run the port takes the senders' seats in and learns what they saw.
//! Nobody waits here: what a sender does when the port is busy is decided above.

mod laws;
mod port;
mod send;
mod stat;
mod table;
mod view;
mod words;

pub use crate::busy::laws::{busy_rule_at_every_moment, busy_rule_kept_by_each_step};
pub use crate::busy::port::{PortSeat, busy_table};
pub use crate::busy::send::{Added, SendSeat, Weight};
pub use crate::busy::stat::{stat_busy, stat_closed, stat_marks, stat_tells_its_marks};
pub use crate::busy::view::{
    AddHow, AddName, BusySetup, BusyView, PlannedAdd, QueueAdd, QueueLimits, SenderLedger,
    SenderView, StatMark,
};
pub use crate::busy::words::{msgq_is_busy, msgq_period};
