//! Where a port's body is, and who runs it.
//!
//! The body of a port stands at home, in a slot beside the word RUN, while nobody runs it. A seat that queues a turn has a ticket for it. A seat that begins a
//! turn, with its ticket or on an idle port, takes the body out, and puts it home when the turn ends. Seats may cross threads, and no call waits.
//! It isn't a run queue: who gets a ticket is decided above.

mod homes;
mod laws;
mod view;

pub use crate::home::homes::{HomeSeat, Lodged, Running, Ticket, home};
pub use crate::home::laws::{home_rule_kept_by_each_step, one_runs_at_every_moment};
pub use crate::home::view::{HomeKey, HomeView};
