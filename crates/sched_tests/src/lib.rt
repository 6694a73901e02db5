//! Tests of the schedulers, over their contracts alone.
#![tactic(auto)]

#[cfg(test)]
mod bodies;
#[cfg(test)]
mod counting;
#[cfg(test)]
mod one_scheduler;
#[cfg(test)]
mod two_schedulers;
#[cfg(test)]
mod waiting;
