//! Tests of `outside`, over its contracts alone.
#![tactic(auto)]

#[cfg(test)]
mod files;
#[cfg(test)]
mod programs;
