//! Readiness: which events a driver uses, and the rounds of a poller that says which of them are ready.
//!
//! A `Selector` belongs to one port. It keeps what `driver_select` of the Erlang/OTP manual of erl_driver asks for: the
//! events that are held, the directions in which each is selected and armed, and those that were given up and wait for the
//! poller. A poller has one `PollTable` for all ports: `poll_round` takes the asks of the ports from its lane, waits once,
//! and appends what the ports are to be told.
//!
//! This crate calls no driver and tells no port by itself. Readiness is a hint, so nothing here promises that an event that
//! was told has anything to give, or that an armed event is told at all.
#![tactic(auto)]

mod armed;
mod ask;
mod event_set;
mod laws;
mod rounds;
mod selector;
mod take_asks;

pub use armed::{Armed, PollTable};
pub use ask::{PollAsk, Polled};
pub use laws::told_no_more_than_answered;
pub use rounds::poll_round;
pub use selector::{Delivered, NotUsed, Selector, Unused};
