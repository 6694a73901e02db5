//! Tests of events, jobs and suspensions, over the contracts of ready_select, port_events, async_jobs, port_jobs, suspend_list and
//! port_suspension.
#![tactic(auto)]

#[cfg(test)]
mod events;
#[cfg(test)]
mod jobs;
#[cfg(test)]
mod ready;
#[cfg(test)]
mod suspended;
#[cfg(test)]
mod suspension;
#[cfg(test)]
mod workers;
