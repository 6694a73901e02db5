//! The seats of a run are dealt to its jobs before it, and after it the bodies are brought home.
#![tactic(auto)]

mod adding;
mod dealing;
mod homing;
mod plans;
mod rooms;
mod running;
mod seating;

pub use homing::{HomeRoom, bring_home};
pub use no_memory::NoMemory;
pub use plans::{ProcessPlan, ProcessSteps, process_plans};
pub use rooms::EndRoom;
pub use run_jobs::Watch;
pub use run_lanes::{FinishEnds, PollerLanes, ProcessLanes, WorkerLanes};
pub use running::{RunLeft, run_seated};
pub use seating::{OtherLanes, SeatedRun, seat_run, seats_stay_of_one_run};
pub use threaded_jobs::{EndedJobs, EndedProcess, FinishLeft, PollerLeft, Stop, WorkerLeft};
