//! Tests of the driver of programs, over its contract and those of the programs of memory.
#![tactic(auto)]

#[cfg(test)]
mod checks;
#[cfg(test)]
mod ends;
#[cfg(test)]
mod failures;
#[cfg(test)]
mod port;
#[cfg(test)]
mod program_input;
#[cfg(test)]
mod program_output;
#[cfg(test)]
mod shown;
