ghost use Rattle.std.specs.Prelude.{◌≡◌};
ghost use Rattle.async_jobs.specs.Work.{IsCode, work_of};

use io_vector::Piece;
use task_queue::Fits;

/// A job as a driver submits it, after `driver_async`. Its port and its number name it: a port's jobs are numbered from 0.
///
/// The jobs of one key that one pool submits are worked in the order of their submission. The code says what is asked for: 1, 2 or
/// 3.
#[derive(Drop)]
pub struct Job {
    pub port: u32,
    pub number: u64,
    pub key: u32,
    pub code: u8,
    pub input: Piece,
    pub ghost known: { IsCode code },
}

/// A job that was worked. The output is the work of its code and its input.
#[derive(Drop)]
pub struct Done {
    pub port: u32,
    pub number: u64,
    pub code: u8,
    pub input: Piece,
    pub output: Piece,
    pub ghost known: { IsCode code },
    pub ghost worked: { output ≡ work_of code input },
}

/// What lies in a worker's lane: a job, or the word that the worker may end.
#[derive(Drop)]
pub enum WorkItem {
    Work(Job),
    Finish,
}

/// Every item fits, in a lane with no key.
impl Fits for WorkItem {
    ghost use Rattle.async_jobs.specs.Items.{AnyFits};

    type Key = ();

    ghost fits = { AnyFits };
}
