ghost use Rattle.std.specs.Prelude.{IsTrue};
ghost use Rattle.port_sched.specs.Running.{Looked, SawTheEnd};
ghost use Rattle.run_jobs.specs.Stops.{SawStop};

use port_words::over::OverSeat;

const ONE_STOP: u64 = 1 << 32;

/// Whether somebody has stopped the run.
pub(crate) fn is_stopped(over: &mut OverSeat) -> bool
    ensures looked { Looked over.old over.new }
    ensures stopped { IsTrue result → SawStop over.old over.new }
{
    over.look() / ONE_STOP > 0
}

/// Whether all have finished, or somebody has stopped the run.
pub(crate) fn is_over(over: &mut OverSeat) -> bool
    ensures looked { Looked over.old over.new }
    ensures over { IsTrue result → SawTheEnd over.old over.new }
{
    let word = over.look();
    word / ONE_STOP > 0 || word % ONE_STOP == u64::from(over.counted())
}
