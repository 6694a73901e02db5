//! The options with which a port is opened, with their ranges and what they are where nothing is said.
#![tactic(auto)]

mod config;

pub use config::{Config, DEFAULT_HIGH, DEFAULT_LOW, MAX_LIMIT};
pub use packet_framing::Mode;

#[cfg(test)]
mod tests;
