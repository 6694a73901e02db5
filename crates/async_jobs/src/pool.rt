ghost use Rattle.std.specs.Prelude.{◌≡◌, ◌<◌, OnOk, IfErr, vec_len};
ghost use Rattle.async_jobs.specs.Pool.{Submitted, SameLanes};

use crate::{Job, WorkItem};
use no_memory::NoMemory;
use std::marker::Model;
use std::sync::Wait;
use task_queue::SendEnd;

/// An end in the lane of each worker, in the order of the workers.
#[derive(Drop)]
pub struct Pool {
    lanes: Vec<SendEnd<WorkItem>>,
}

impl Model for Pool {
    ghost use Rattle.std.specs.Prelude.{◌<◌, vec_len};
    ghost use Rattle.async_jobs.specs.Pool.{Lanes};

    ghost Value = { Lanes };

    ghost view = { λ p. p.lanes.items };

    ghost invariant = { λ p. 0 < vec_len p.lanes };
}

impl Pool {
    /// A pool with a worker for each lane, of which there is at least one. It takes no memory.
    pub fn new(lanes: Vec<SendEnd<WorkItem>>) -> Pool
        requires { 0 < vec_len lanes }
        ensures { result ≡ lanes.items }
    {
        Pool { lanes }
    }

    /// The ends, in the order of the workers. It takes no memory.
    pub fn into_lanes(self) -> Vec<SendEnd<WorkItem>>
        ensures lanes { result.items ≡ self }
        ensures some { 0 < vec_len result }
    {
        let Pool { lanes } = self;
        lanes
    }

    /// Puts the job into the lane of its key's worker and into no other. The worker's place is `key` modulo the number of workers,
    /// as `driver_async` picks its thread. Where no memory is found the job comes back, and nothing was put. It may spin while
    /// another thread is in a call.
    pub fn submit<R: Wait>(&mut self, rt: &R, job: Job) -> Result<(), (Job, NoMemory)>
        ensures same { SameLanes self.old self.new }
        ensures submitted { OnOk result (Submitted self.old job self.new) }
        ensures refused { IfErr result (λ e. (e.0 ≡ job) × (self.new ≡ self.old)) }
    {
        let worker = job.key as usize % self.lanes.len();
        match self.lanes[worker].put(rt, WorkItem::Work(job)) {
            Ok(_) => Ok(()),
            Err((item, no_memory)) => match item {
                WorkItem::Work(job) => Err((job, no_memory)),
                WorkItem::Finish => unreachable!(),
            },
        }
    }
}
