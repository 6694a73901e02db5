//! Runs of a script: the top call, from the words of the command line to the report.
#![tactic(auto)]

mod laws;
mod making;
mod preparing;
mod top;
mod writing;

pub use driver_hosts::Hosted;
pub use laws::finished_history_has_an_end;
pub use making::host_drivers;
pub use run_report::{
    Cause, PortReport, ProcessRecord, Report, ScriptFault, StartRefusal, cause_text, report_text,
};
pub use top::{CallEnd, gateway, run_hosted};
