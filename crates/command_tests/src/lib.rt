//! Tests of the commands that run nothing, over the contracts of plain_command.
#![tactic(auto)]

#[cfg(test)]
mod commands;
