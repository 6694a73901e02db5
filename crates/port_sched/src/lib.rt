//! Schedulers: each takes tickets of ports and runs their turns, until the run is over.
//!
//! A body stands at home (`port_words`) while nobody runs it, and its tickets travel in the queues of `run_queue`. A scheduler claims a ticket, or an idle port where
//! it finds no ticket, makes one turn of at most 64 steps, and puts the body home. Nobody holds a lock while a turn runs.
//! It isn't an engine: it knows of a body only its name, whether it has finished, and its turn.
#![tactic(auto)]

mod body;
mod closing;
mod counts;
mod jobs;
mod lodger;
mod meeting;
mod schedulers;
mod scheduling;
mod turns;
mod waking;

pub use body::{PortBody, Turn};
pub use closing::{close_homes, join_homes};
pub use counts::TurnCounts;
pub use jobs::ThreadJob;
pub use lodger::Lodger;
pub use no_memory::NoMemory;
pub use schedulers::{Scheduler, run};
pub use scheduling::{SchedEnd, SchedSeats, scheduler};
pub use turns::Home;
pub use wake_ups::Idle;
pub use waking::JobSeats;
