//! What travels between processes, ports, the poller and the workers: signals and tasks, the rows of a port's history, and
//! mail, for everything that a port can do. A history is the list of a port's rows, and `port_history` says what it tells.
//!
//! It has no behaviour of its own: who handles a signal, and what that does, is the work of the crates above.
#![tactic(auto)]

mod effect;
mod event;
mod mail;
mod row;
mod signal;
mod task;

pub use effect::Effect;
pub use event::Dir;
pub use mail::Mail;
pub use port_signal::{
    Answer, Flag, IoVec, Items, Log, MarkKind, Monitor, NoMemory, Outside, Piece, Reason,
};
pub use row::{Journal, Row, Rows};
pub use signal::{Sender, Signal};
pub use task::Task;
