//! Tests of runs under a load, over their contracts alone.
#![tactic(auto)]

#[cfg(test)]
mod load;
