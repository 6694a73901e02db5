//! Tests of a port whole: its body, the processes that send to it, the poller and the workers, by hand on one thread.
//!
//! A test hands a driver and a list of acts to `play`, which makes them one after another, and looks at the texts that come of it: what each act came to, the
//! rows of the port, and the receipts of the processes.
#![tactic(auto)]

#[cfg(test)]
mod acts;
#[cfg(test)]
mod closing;
#[cfg(test)]
mod dealing;
#[cfg(test)]
mod failing;
#[cfg(test)]
mod jobs;
#[cfg(test)]
mod limits;
#[cfg(test)]
mod memory;
#[cfg(test)]
mod others;
#[cfg(test)]
mod peers;
#[cfg(test)]
mod programs;
#[cfg(test)]
mod rig;
#[cfg(test)]
mod suspending;
#[cfg(test)]
mod text;
#[cfg(test)]
mod ties;
