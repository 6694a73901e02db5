//! Tests of terms, and of the data in a line of a script, over the contracts of port_terms and script_text.
#![tactic(auto)]

#[cfg(test)]
mod checks;
#[cfg(test)]
mod data;
#[cfg(test)]
mod terms;
