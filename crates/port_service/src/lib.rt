//! The driver that serves a port, as the port's rows call it: the callback of a handled signal, `flush` where the port closes with
//! something queued, and `stop` once nothing is queued any more. What a row's calls leave is said in the words of a history.
//!
//! It knows neither the port's lane nor its mail, and makes no rows: it answers what a row tells of its driver.
#![tactic(auto)]

mod calling;
mod closing;
mod handling;
mod opening;
mod service;
mod watching;

pub use handling::{Caller, Handled, PortStanding};
pub use port_driver::{Config, Driver, Life, StartRefusal};
pub use port_model::NoMemory;
pub use service::Service;
