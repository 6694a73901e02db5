//! How a run begins: what it is set up with, and its ports are opened, each with its driver and in its place among the lanes and words of the run. What its bodies and its jobs leave of that once nobody
//! stopped it is defined here too, for the crates that end a run.
#![tactic(auto)]

mod opening;
mod rooms;
mod run_script;

pub use driver_hosts::{Body, Driver, Hosted, StartRefusal, all_drivers_come_back, take_back};
pub use opening::{JobLanes, OpenFault, OpenPorts, open_ports_of};
pub use run_end::{calls_tell, waits_are_shown};
pub use run_lanes::LaneSize;
pub use run_script::RunScript;
pub use run_seats::{
    EndedJobs, EndedProcess, FinishLeft, OtherLanes, PollerLeft, ProcessSteps, SeatedRun, Stop,
    Watch, WorkerLeft, process_plans, seat_run,
};
pub use script_plan::PortDecl;
