//! What the signals, rows and mail of ports are made of: names and the reasons for which things end, what a port answers, the marks
//! that its STAT word shows, what the outside answers, monitors, and lists.
//!
//! It has no behaviour of its own: who handles a signal, and what that does, is the work of the crates above.
#![tactic(auto)]

mod answer;
mod items;
mod mark;
mod meanings;
mod monitor;
mod name;
mod outside;
mod spelling;

pub use answer::Answer;
pub use io_vector::{Flag, IoVec, Piece};
pub use items::{Items, Log, MAX_ITEMS};
pub use mark::MarkKind;
pub use monitor::Monitor;
pub use name::{MAX_NAME, Reason, ReasonFault};
pub use no_memory::NoMemory;
pub use outside::Outside;
pub use spelling::reason;
pub use task_queue::Fits;
