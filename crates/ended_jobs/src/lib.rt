//! A seated run is run to its end: its bodies come home, and its jobs tell what is left of them.
#![tactic(auto)]

mod running;

pub use running::{RunOver, run_to_end};
