//! The call of a driver as a row of a history tells it: its callback, what the outside answered, and the effects of the row. What such a
//! call does is said for every list of earlier calls, as `port_driver` says it of a driver that asks the outside itself.
#![tactic(auto)]

mod call;

pub use call::{Callback, RecordedCall};
