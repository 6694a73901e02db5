//! Tests of the sample drivers and of the context of a callback, over the contracts of sample_drivers and port_driver.
#![tactic(auto)]

#[cfg(test)]
mod checks;
#[cfg(test)]
mod contexts;
#[cfg(test)]
mod kinds;
#[cfg(test)]
mod port;
#[cfg(test)]
mod queues;
#[cfg(test)]
mod shown;
#[cfg(test)]
mod stores;
