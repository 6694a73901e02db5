//! Lanes: queues in which many senders put values for one taker, each in its own order.
//!
//! A lane has any number of sending ends and one taking end, and each end may be held by another thread. It keeps the order of
//! each sender: what was taken of a sender is at every moment a prefix of what it sent, and all of it once the sender's end was
//! taken in and a take then found nothing. It says nothing of the order between two senders, bounds nothing and has no priorities.
//! A taker that finds nothing may rest at its end, and a put wakes it, which no contract promises.
#![tactic(auto)]

mod channel;
mod fits;
mod item;
mod laws;
mod protocol;
mod send_end;
mod take_end;

pub use channel::lane;
pub use fits::Fits;
pub use item::Item;
pub use laws::{kept_by_each_step, prefix_at_every_moment};
pub use no_memory::NoMemory;
pub use protocol::{Ended, Hand, Rule};
pub use send_end::SendEnd;
pub use take_end::TakeEnd;
pub use wake_ups::{Idle, Waiter};
