//! The script of the load generator: `load_script` makes the same script of the same number, with 16,000 commands of eight
//! processes to four echo ports.
//!
//! It is for the plan of that script alone: it writes no text and runs no step.
#![tactic(auto)]

mod laws;
mod load;
mod names;
mod numbers;
mod steps;

pub use laws::each_wait_counts_the_commands;
pub use load::load_script;

#[cfg(test)]
mod tests;
