//! The lanes of a port: what lies in them, who may put it, and how the ends of senders are numbered.
//!
//! A port takes from one lane, in which each sender has an end of its own: processes, the poller and the workers. A `Parcel` is what lies
//! there: a task, and for a command the weight of its bytes in the port's word MSGQ. Which parcel fits which end is what `Fits` says here;
//! contracts of lanes then give it of every parcel that is taken.
#![tactic(auto)]

mod key;
mod laws;
mod parcel;

pub use key::LaneKey;
pub use laws::each_sender_has_an_end;
pub use parcel::Parcel;
