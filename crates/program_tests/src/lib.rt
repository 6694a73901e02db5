//! Tests of programs of the machine, over the contracts of `outside`.
#![tactic(auto)]

#[cfg(test)]
mod programs;
