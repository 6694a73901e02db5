//! Tests of the judge of journals, over the contracts of history_replay and journal_text.
#![tactic(auto)]

#[cfg(test)]
mod cuts;
#[cfg(test)]
mod judged;
#[cfg(test)]
mod laws;
