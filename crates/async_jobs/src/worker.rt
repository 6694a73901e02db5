ghost use Rattle.std.specs.Prelude.{◌≡◌, IfOk, IfErr};
ghost use Rattle.task_queue.specs.Ends.{KeepsOrder};
ghost use Rattle.async_jobs.specs.Items.{AnyFits};
ghost use Rattle.async_jobs.specs.Turns.{IsDoneOf, Turned};
ghost use Rattle.async_jobs.specs.Work.{work_of};

use crate::{Done, Job, Pool, WorkItem, work};
use io_vector::Piece;
use no_memory::NoMemory;
use std::alloc::Global;
use std::sync::Wait;
use task_queue::{Item, TakeEnd};

/// What a worker's turn did.
#[derive(Drop)]
pub enum Worked {
    /// It took this job and worked it.
    Did(Done),
    /// It found the lane empty.
    Empty,
    /// It took a `Finish`.
    Finished,
    /// It took this job, and found no memory to work it.
    NoMemory(Job),
}

impl Pool {
    /// A turn of a worker: takes the next item of its lane, and works it if it is a job. Where no memory is found the job comes
    /// back, and stays taken. It may spin while another thread is in a call.
    pub fn worker_turn<R: Wait>(rt: &R, alloc: Global, end: &mut TakeEnd<WorkItem>) -> Worked
        ensures same { end.new ≡ record end.old { taken = end.new.taken } }
        ensures turned { Turned end.old end.new result }
        ensures order { KeepsOrder AnyFits end.new }
    {
        let Some(Item { value, .. }) = end.take(rt) else {
            return Worked::Empty;
        };
        let WorkItem::Work(job) = value else {
            return Worked::Finished;
        };
        match done(alloc, job) {
            Ok(done) => Worked::Did(done),
            Err((job, NoMemory)) => Worked::NoMemory(job),
        }
    }
}

// The job as it is done. Where no memory is found it comes back.
fn done(alloc: Global, job: Job) -> Result<Done, (Job, NoMemory)>
    ensures done { IfOk result (IsDoneOf job) }
    ensures back { IfErr result (λ e. e.0 ≡ job) }
{
    let output = match output(alloc, &job) {
        Ok(output) => output,
        Err(no_memory) => return Err((job, no_memory)),
    };
    let Job {
        port,
        number,
        key: _,
        code,
        input,
    } = job;
    Ok(Done {
        port,
        number,
        code,
        input,
        output,
    })
}

fn output(alloc: Global, job: &Job) -> Result<Piece, NoMemory>
    ensures { IfOk result (λ output. output ≡ work_of job.now.code job.now.input) }
{
    Piece::of_vec(work(alloc, job.code, job.input.as_slice())?)
}
