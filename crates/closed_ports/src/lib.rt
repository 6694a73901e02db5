//! How the ports of a run that is over are closed: once all its jobs have been joined, they take in the ends of their lanes that are given back, make turns until nothing is
//! left to do, and then have one row of each task that was sent. They end, and give back their drivers and their histories.
#![tactic(auto)]

mod closing;
mod laws;
mod settling;
mod taking_in;

pub use closing::close_ports;
pub use driver_hosts::{Driver, EndedPort, Hosted};
pub use laws::{
    accepted_signals_have_rows, closed_ports_are_lawful, every_row_is_of_a_sender,
    settled_ports_have_all_ends, settled_rows_are_what_was_sent,
};
pub use no_memory::NoMemory;
pub use port_body::{Body, Parcel};
pub use settling::{settle, settle_all};
pub use taking_in::take_in_ends;
