ghost use Rattle.port_sched.specs.Jobs.{WentEach};
ghost use Rattle.ticket_account.specs.Run.{HasWoken};
ghost use Rattle.threaded_jobs.specs.Jobs.{HaveRun};
ghost use Rattle.threaded_jobs.specs.Parts.{seats_of};

use crate::jobs::RunJobs;
use outside::PollSet;
use port_sched::PortBody;

/// The seats of jobs that have run went on as `ticket_account::gather` wants it.
pub fn seats_go_on<B: PortBody, S: PollSet>(jobs: &RunJobs<B, S>)
    ensures { (old : RunJobs _ _ _) → HaveRun S.faults S.answered old jobs.now → WentEach HasWoken (seats_of old) (seats_of jobs.now) }
{}
