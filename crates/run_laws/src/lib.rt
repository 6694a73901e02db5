//! What is the same in each run of a script, whatever the schedule: what the owner of a port has to save of it, what its program took and gave, the summary of a load, what the report counts of a process, and
//! what a replay finds of the journal.
//!
//! These are laws of the definitions alone, as contracts of functions that do nothing.
#![tactic(auto)]

mod counted;
mod echoed;
mod journals;
mod saved;
mod summary;

pub use counted::commands_are_counted_in_every_run;
pub use echoed::commands_are_echoed;
pub use journals::journals_are_replayed_in_every_run;
pub use run_output::{
    OutputFault, RunEnd, RunFault, ScriptRan, report_of, run_script, write_output, write_summary,
};
pub use saved::{output_is_saved_in_every_run, programs_are_served_in_every_run};
pub use summary::summary_is_of_number;
