//! Tests of bytes, names, lanes, frames and ties, over the contracts of io_vector, driver_queue, port_signal, task_queue,
//! packet_framing, waiting_parcels and port_links.
#![tactic(auto)]

#[cfg(test)]
mod checks;
#[cfg(test)]
mod framing;
#[cfg(test)]
mod lanes;
#[cfg(test)]
mod names;
#[cfg(test)]
mod parcels;
#[cfg(test)]
mod queues;
#[cfg(test)]
mod ties;
#[cfg(test)]
mod vectors;
#[cfg(test)]
mod waits;
