//! Tests of what serves a port, over the contracts of port_service and of the sample drivers.
#![tactic(auto)]

#[cfg(test)]
mod served;
#[cfg(test)]
mod serving;
