//! The tickets that wait for a scheduler: one deque for each scheduler, and an injector for all others.
//!
//! A scheduler pushes to its own deque, and takes of it, of the injector and of the deques of the others, so that none of them is idle while tickets wait. A job
//! beside the schedulers puts its tickets into the injector. Each deque and the injector has a rule that holds between any two steps: what its views took, with
//! what it holds, is what its views put, each once.
//! A scheduler that finds no ticket may rest at its seat, and who puts a ticket wakes one that rests, which no contract promises.
//! It isn't a scheduler: it knows no port and no body, and a ticket that lies here may be stale.
#![tactic(auto)]

mod account;
mod deque_end;
mod entry_seat;
mod laws;
mod opening;
mod run_seat;

pub use account::{EachOnce, QueueHand};
pub use entry_seat::EntrySeat;
pub use laws::{each_once_at_every_moment, kept_by_each_step};
pub use no_memory::NoMemory;
pub use opening::run_queue;
pub use port_words::home::Ticket;
pub use run_seat::RunSeat;
pub use wake_ups::Idle;
