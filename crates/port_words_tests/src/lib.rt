//! Tests of the words by which threads share a port, over their contracts alone.
#![tactic(auto)]

#[cfg(test)]
mod busy;
#[cfg(test)]
mod home;
#[cfg(test)]
mod over;
