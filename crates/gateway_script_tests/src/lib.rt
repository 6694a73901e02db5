//! Tests of whole scripts, over the contracts of gateway_script.
#![tactic(auto)]

#[cfg(test)]
mod faults;
#[cfg(test)]
mod plans;
#[cfg(test)]
mod shown;
