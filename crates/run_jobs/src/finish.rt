ghost use Rattle.std.specs.Prelude.{◌≡◌, ◌<◌, length, OnOk, OnErr};
ghost use Rattle.ready_select.specs.declared.ask.PollAsk.TheVariants.{Finish as PollFinish};
ghost use Rattle.port_sched.specs.Running.{Looked, SawTheEnd};
ghost use Rattle.run_jobs.specs.Finishing.{SendsOne, SendsFinishAt, TellsBy, TellsWorkers};

use crate::stopping::is_over;
use async_jobs::WorkItem;
use no_memory::NoMemory;
use port_sched::{Idle, ThreadJob};
use port_words::over::OverSeat;
use ready_select::PollAsk;
use std::sync::Wait;
use task_queue::SendEnd;

/// How the job ended that tells the others of the end of a run.
#[derive(Clone, Copy, Debug, PartialEq, Eq)]
pub enum FinishEnd {
    /// It told the poller and each worker.
    Told,
    /// It found no memory to tell one of them, and stopped the run.
    NoMemory,
}

/// Waits for the end of the run, and then tells the poller and the workers, in their order, that nothing more will come.
#[derive(Drop)]
pub struct FinishJob {
    pub over: OverSeat,
    pub poller: SendEnd<PollAsk>,
    pub workers: Vec<SendEnd<WorkItem>>,
    /// How it ended, once it has run.
    pub end: Option<FinishEnd>,
}

// Waits until all have finished, or somebody has stopped the run.
fn wait_for_end<R: Wait>(rt: &R, over: &mut OverSeat)
    ensures looked { Looked over.old over.new }
    ensures over { SawTheEnd over.old over.new }
{
    let idle = Idle::new();
    'looks: for _ in rt.forever() {
        if is_over(over) {
            return;
        }
        over.rest(rt, &idle);
    }
}

// Tells the poller.
fn tell_poller<R: Wait>(rt: &R, poller: &mut SendEnd<PollAsk>) -> Result<(), NoMemory>
    ensures ok { OnOk result (SendsOne PollFinish poller.old poller.new) }
    ensures err { OnErr result (poller.new ≡ poller.old) }
{
    match poller.put(rt, PollAsk::Finish) {
        Ok(_) => Ok(()),
        Err((_, no_memory)) => Err(no_memory),
    }
}

// Tells the worker at a place.
fn tell_worker<R: Wait>(
    rt: &R,
    workers: &mut Vec<SendEnd<WorkItem>>,
    worker: usize,
) -> Result<(), NoMemory>
    requires { worker < length workers.old.items }
    ensures ok { OnOk result (SendsFinishAt worker workers.old.items workers.new.items) }
    ensures err { OnErr result (workers.new.items ≡ workers.old.items) }
{
    match workers[worker].put(rt, WorkItem::Finish) {
        Ok(_) => Ok(()),
        Err((_, no_memory)) => Err(no_memory),
    }
}

// Tells the poller, and then the workers, until one finds no memory.
fn tell_end<R: Wait>(
    rt: &R,
    poller: &mut SendEnd<PollAsk>,
    workers: &mut Vec<SendEnd<WorkItem>>,
) -> FinishEnd
    ensures poller { TellsBy result PollFinish poller.old poller.new }
    ensures workers { TellsWorkers result workers.old.items workers.new.items }
{
    let Ok(()) = tell_poller(rt, poller) else {
        return FinishEnd::NoMemory;
    };
    'workers: for worker in 0..workers.len() {
        let Ok(()) = tell_worker(rt, workers, worker) else {
            return FinishEnd::NoMemory;
        };
    }
    FinishEnd::Told
}

impl ThreadJob for FinishJob {
    ghost use Rattle.run_jobs.specs.Finishing.{CanTellEnd, HasToldEnd};

    ghost can_run = { CanTellEnd };

    ghost went = { HasToldEnd };

    fn run<R: Wait>(&mut self, rt: &R) {
        wait_for_end(rt, &mut self.over);
        let end = tell_end(rt, &mut self.poller, &mut self.workers);
        if end == FinishEnd::NoMemory {
            self.over.stop();
        }
        self.end = Some(end);
    }
}
