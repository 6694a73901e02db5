//! How a run of a script begins: its ports are opened, the lanes and the steps of the processes are dealt to its jobs, and the run is seated.
#![tactic(auto)]

mod dealing;
mod ending;
mod seating;

pub use run_opening::{
    Driver, EndedJobs, EndedProcess, FinishLeft, Hosted, OpenFault, PollerLeft, ProcessSteps,
    RunScript, SeatedRun, StartRefusal, Stop, Watch, WorkerLeft, calls_tell, waits_are_shown,
};
pub use seating::{SeatedScript, Unseated, seat_script};
