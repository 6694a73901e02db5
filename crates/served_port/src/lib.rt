//! A port with the driver that serves it, the driver's events and its jobs: what a task from the port's lane does to them.
//!
//! `ServedPort` decides of each task whether the port handles it or finds it late. It has the driver called for a handled one, tells the
//! poller which events became armed or are to be dropped, hands the driver's jobs to the workers, and is then what the history of the
//! port says after the task's row (`IsAt`). It makes no rows, puts no mail, and takes nothing from a lane.
#![tactic(auto)]

mod ending;
mod ends;
mod handling;
mod marks;
mod opening;
mod outcome;
mod served_port;

pub use async_jobs::Pool;
pub use ends::{PortEnds, PortPlace};
pub use outcome::HandledOrLate;
pub use port_driver::{Config, Driver, StartRefusal};
pub use port_links::Links;
pub use port_model::{Effect, MarkKind, NoMemory, Sender, Signal};
pub use port_state::Served;
pub use ready_select::PollAsk;
pub use served_port::ServedPort;
pub use task_queue::SendEnd;
