//! The sample drivers, a kind a file: what each does for every list of calls is said in `driver_model`.
#![tactic(auto)]

mod digest;
mod echo;
mod joined;
mod refuse;
mod store;
mod tally;
mod valve;

pub use digest::Digest;
pub use echo::Echo;
pub use refuse::{Refuse, Refused};
pub use store::Store;
pub use tally::Tally;
pub use valve::Valve;
