//! Tests of the queues of tickets, over their contracts alone.
#![tactic(auto)]

#[cfg(test)]
mod order;
