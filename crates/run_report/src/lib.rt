//! The report of a run, the causes with which a run ends, and the texts of both.
//!
//! It is for telling what a run did: the histories of its ports and what came to its processes are counted here and written
//! line by line. It isn't for running anything, and it doesn't judge whether a history is lawful.
#![tactic(auto)]

mod cause;
mod counting;
mod counts;
mod data;
mod laws;
mod lines;
mod receipts;
mod report;
mod saved;
mod senders;
mod summary;
mod text;
mod walk;

pub use cause::{Cause, cause_text};
pub use journal_text::PortReport;
pub use laws::counts_ask_for_owner_and_processes_alone;
pub use lines::{check_text, replay_text};
pub use port_driver::StartRefusal;
pub use report::{Mails, ProcessRecord, Report};
pub use saved::saved_parts;
pub use script_plan::ScriptFault;
pub use summary::load_text;
pub use text::report_text;
