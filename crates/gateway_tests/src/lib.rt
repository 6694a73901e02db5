//! Tests of whole runs, over the contract of gateway.
#![tactic(auto)]

#[cfg(test)]
mod faults;
#[cfg(test)]
mod journals;
#[cfg(test)]
mod loads;
#[cfg(test)]
mod outputs;
#[cfg(test)]
mod reports;
#[cfg(test)]
mod runs;
