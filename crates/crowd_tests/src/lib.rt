//! Tests of processes that send at the same time: four of them and a port that takes, in threads of their own, and what one process finds at the limits of a call.
#![tactic(auto)]

#[cfg(test)]
mod crowd;
#[cfg(test)]
mod limits;
#[cfg(test)]
mod rig;
#[cfg(test)]
mod sending;
#[cfg(test)]
mod taking;
