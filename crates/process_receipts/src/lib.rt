//! What a process keeps of its calls: a receipt of each call by which it sent a signal to a port, and how a command was to be sent. With the types stand the
//! definitions of the receipts beside the calls: which signals were put into a port's lane, and for which cause a call had its outcome.
#![tactic(auto)]

mod how;
mod receipt;

pub use how::How;
pub use port_history::{Items, Log};
pub use receipt::{Outcome, Receipt, Receipts};
