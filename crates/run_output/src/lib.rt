//! What a run left becomes its report, and is written: the data that is saved, the journal, and the text of the report.
#![tactic(auto)]

mod reporting;
mod writing;

pub use reporting::report_of;
pub use script_run::{RunEnd, RunFault, ScriptRan, run_script};
pub use writing::{OutputFault, write_output, write_summary};
