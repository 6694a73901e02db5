//! What workers see to of the law of jobs: a port that is told its jobs in their order, each once, with the work of each, has a history that keeps every law; and so are the ports of a run on threads.
//!
//! A port sees to all laws but that by itself (`recorded_port`); who runs the workers shows the rest of the lanes.
#![tactic(auto)]

ghost use Rattle.told_jobs.specs.Told.{JobsToldInOrder};
ghost use Rattle.told_jobs.specs.Runs.{WorkersTellJobs};

/// A history whose rows keep the laws that a port sees to, and whose workers told, each in the order of submission, the work of the first of its jobs, keeps all laws.
pub fn jobs_told_in_order_are_lawful()
    ensures { JobsToldInOrder }
{}

/// Workers that answer the jobs of their lanes in the order in which they take them tell each port its jobs in the order of submission: all histories of such a run keep all laws.
pub fn workers_tell_their_jobs()
    ensures { WorkersTellJobs }
{}
