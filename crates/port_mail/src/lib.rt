//! The mail of a port's rows, and the mailboxes that it goes to.
//!
//! A port has an end of its own in the mailbox of each process. `Mailboxes` holds these ends, and puts what a row sends, part by part or
//! all of it: the data of its driver's effects, the answer to its signal, what the end of the port tells, and `closed`. What a
//! row sends is said by the history of the port (`row_mail` of `port_history`), after the Erlang/OTP manual of `erlang`
//! (`open_port`, `port_control`, `port_connect`, `link`, `monitor`) and the chapter Ports and Port Drivers of the Erlang Reference Manual.
//!
//! Nothing here calls a driver or changes the ties of a port. No mailbox is taken from here.
#![tactic(auto)]

mod answers;
mod handling;
mod mailboxes;
mod parts;
mod rows;

pub use handling::{Closing, HandledRow, Handling, Origin, Resumption};
pub use mailboxes::Mailboxes;
pub use port_links::{Links, Post};
pub use port_model::{Effect, Mail, NoMemory, Sender, Signal};
pub use task_queue::SendEnd;
