//! A process as it sends to ports and takes its mail.
//!
//! A `Proc` may send; a `Stopped` may not, since a busy port suspended it. Each call leaves a receipt, with the words of the port that its own steps found or left. Nobody waits here: who calls again is decided above.
#![tactic(auto)]

mod added;
mod answers;
mod ending;
mod laws;
mod looking;
mod proc;
mod refusal;
mod sending;
mod sides;
mod stopped;
mod telling;

pub use answers::{Ask, Commanded, NotYet, ProcEnd, ProcParts, SendRefusal, Shown};
pub use laws::{plain_adds_differ, shown_stats_rise, words_keep_the_bound};
pub use port_lanes::{LaneKey, Parcel};
pub use proc::Proc;
pub use process_receipts::{How, Outcome, Receipt, Receipts};
pub use stopped::Stopped;
