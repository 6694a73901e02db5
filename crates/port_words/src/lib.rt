//! The atomic words by which threads share a port.
//!
//! `busy` has STAT and MSGQ, by which a port and its senders tell each other how busy the port is. `home` keeps the port's body and says who runs it. `over`
//! tells when a run is over. Each word is changed by seats, which may cross threads, and has a rule that holds between any two steps: the functions
//! `busy_rule_at_every_moment`, `one_runs_at_every_moment` and `over_rule_at_every_moment`, and the three
//! `.._kept_by_each_step` beside them, have these rules as their contracts. Nobody waits here for another thread.
#![tactic(auto)]

pub mod busy;
pub mod home;
pub mod over;

pub use no_memory::NoMemory;
