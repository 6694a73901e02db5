//! The judge of journals: whether each port's history keeps the laws and is finished, and else the first row at which one breaks a law and
//! the least law that it breaks there.
//!
//! A history is walked once, oldest row first. Each row is judged on the state of the rows before it, law by law, and is taken in where it
//! keeps them all.
#![tactic(auto)]

mod judging;
mod laws;
mod port;
mod replaying;
mod walk;

pub use history_driver::NoMemory;
pub use journal_text::{Book, PortReport};
pub use laws::nothing_is_told_of_legal_ports_alone;
pub use port::{BrokenLaw, first_broken};
pub use replaying::{Verdict, replay};
