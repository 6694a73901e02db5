//! The run of a script on threads, from its drivers to what its ports and its processes leave.
#![tactic(auto)]

mod bodies;
mod closing;
mod parting;
mod running;

pub use running::{PortLeft, ProcessLeft, RunEnd, RunFault, ScriptRan, run_script};
pub use seated_script::{Driver, Hosted, ProcessSteps, RunScript, StartRefusal};
