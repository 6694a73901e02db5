//! The definitions of `run_report`, computed on worked reports: their texts to the byte, and what is counted in them.
#![tactic(auto)]

mod worked;

pub use worked::{
    a_command_and_a_close_are_reported, commands_of_two_processes_are_told_apart,
    what_called_no_driver_is_not_counted, what_is_saved_is_told_port_by_port,
};
