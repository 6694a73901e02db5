//! What the history of a port tells: its owner, links and monitors, the calls that its driver got, its events and jobs, who is suspended,
//! which mail its rows sent, and whether it keeps the ten laws of histories. Definitions and laws alone.
//!
//! A history is the list of a port's rows, read newest row first. `state` (specs/State.antt) is what a history tells, row by row; a law
//! is a test on the state before a row and that row (specs/Laws.antt), so that the first row which breaks one, and the least law that it
//! breaks, are functions of the history (specs/Lawful.antt).
#![tactic(auto)]

mod laws;

pub use driver_model::{Items, Log, Mail, Monitor, NoMemory, Reason, Sender, Signal, Task};
pub use laws::nothing_is_told_of_lawful_histories_alone;
