//! Tests of the process that sends, over the contracts of process_end on one thread, over a lane, a table and a mailbox.
#![tactic(auto)]

#[cfg(test)]
mod answers;
#[cfg(test)]
mod ending;
#[cfg(test)]
mod limits;
#[cfg(test)]
mod rig;
#[cfg(test)]
mod sender;
#[cfg(test)]
mod steps;
#[cfg(test)]
mod suspending;
