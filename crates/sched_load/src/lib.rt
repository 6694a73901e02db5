//! A load for the schedulers: ports that take numbers, and jobs that put them.
//!
//! Each job puts so many numbers for each port, and wakes the port after each. A port has finished once it took all that the jobs put for it.
#![tactic(auto)]

mod loading;
mod putter;
mod running;
mod till;

pub use loading::{LoadSize, load, putters};
pub use putter::Putter;
pub use running::{LoadEnd, Turns, run_load};
pub use till::{Number, Till};
