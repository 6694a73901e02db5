ghost use Rattle.async_jobs.specs.Work.{IsCode};

use async_jobs::{Done, Job, NoMemory, Piece, Pool, SendEnd, TakeEnd, WorkItem, Worked, work};
use std::alloc::Global;
use std::snapshot::Snapshot;
use std::sync::Wait;
use std::sync::atomic::{AtomicU64, Ordering};
use std::thread;
use std::thread::{Threads, join};
use task_queue::lane;

const WORKERS: usize = 3;

const KEYS: u32 = 7;

const JOBS: u64 = 1000;

/// Whether the work of a code turns this input into this output.
fn works(alloc: Global, code: u8, input: &[u8], output: &[u8]) -> bool
    requires { IsCode code }
{
    matches!(&work(alloc, code, input), Ok(worked) if worked.as_slice() == output)
}

// The first example of FIPS 180-4's SHA-256.
const DIGEST_OF_ABC: [u8; 32] = [
    0xba, 0x78, 0x16, 0xbf, 0x8f, 0x01, 0xcf, 0xea, 0x41, 0x41, 0x40, 0xde, 0x5d, 0xae, 0x22, 0x23,
    0xb0, 0x03, 0x61, 0xa3, 0x96, 0x17, 0x7a, 0x9c, 0xb4, 0x10, 0xff, 0x61, 0xf2, 0x00, 0x15, 0xad,
];

#[test]
fn each_code_has_its_work(rt: HostRuntime) {
    assert!(rt; works(rt.alloc(), 1, &[1, 2, 3], &[3, 2, 1]));
    assert!(rt; works(rt.alloc(), 2, &[0xff, 0xff], &[0, 0, 0, 0, 0, 0, 1, 0xfe]));
    assert!(rt; works(rt.alloc(), 3, b"abc", &DIGEST_OF_ABC));
}

/// A pool of one worker, and the worker's end.
fn one_worker(alloc: Global) -> Result<(Pool, TakeEnd<WorkItem>), NoMemory> {
    let (end, worker) = lane::<WorkItem>(alloc, Snapshot::of(&()))?;
    let mut ends = Vec::new(alloc);
    ends.push(end)?;
    Ok((Pool::new(ends), worker))
}

/// Submits job 0 of port 4, the sum of two bytes.
fn submit_sum<R: Wait>(rt: &R, alloc: Global, pool: &mut Pool) -> Result<(), NoMemory> {
    let job = Job {
        port: 4,
        number: 0,
        key: 9,
        code: 2,
        input: Piece::of_slice(alloc, &[1, 2])?,
    };
    match pool.submit(rt, job) {
        Ok(()) => Ok(()),
        Err((_, no_memory)) => Err(no_memory),
    }
}

/// What a turn came to.
#[derive(Clone, Copy, PartialEq, Eq)]
enum WorkerTurn {
    /// Job 0 of port 4, the sum of two bytes, was done.
    Sum,
    OtherJob,
    /// The lane was empty.
    Empty,
    /// It was the worker's last turn.
    Finished,
    NoMemory,
}

/// Whether job 0 of port 4, the sum of two bytes, was done.
fn is_sum(done: &Done) -> bool {
    (done.port, done.number, done.code) == (4, 0, 2)
        && done.input.as_slice() == [1, 2].as_slice()
        && done.output.as_slice() == [0, 0, 0, 0, 0, 0, 0, 3].as_slice()
}

/// What the worker's next turn comes to.
fn next_turn<R: Wait>(rt: &R, alloc: Global, worker: &mut TakeEnd<WorkItem>) -> WorkerTurn {
    match &Pool::worker_turn(rt, alloc, worker) {
        Worked::Did(done) if is_sum(done) => WorkerTurn::Sum,
        Worked::Did(_) => WorkerTurn::OtherJob,
        Worked::Empty => WorkerTurn::Empty,
        Worked::Finished => WorkerTurn::Finished,
        Worked::NoMemory(_) => WorkerTurn::NoMemory,
    }
}

/// Tells the first worker of a pool to finish.
fn finish<R: Wait>(rt: &R, pool: Pool) -> bool {
    pool.into_lanes()[0].put(rt, WorkItem::Finish).is_ok()
}

/// What two turns come to after a job was submitted, and one after the worker was told to finish, if it was told.
fn turns<R: Wait>(
    rt: &R,
    alloc: Global,
) -> Result<(WorkerTurn, WorkerTurn, Option<WorkerTurn>), NoMemory> {
    let (mut pool, mut worker) = one_worker(alloc)?;
    submit_sum(rt, alloc, &mut pool)?;
    let first = next_turn(rt, alloc, &mut worker);
    let second = next_turn(rt, alloc, &mut worker);
    let is_told = finish(rt, pool);
    Ok((
        first,
        second,
        is_told.then_some(next_turn(rt, alloc, &mut worker)),
    ))
}

#[test]
fn a_turn_works_a_job_and_then_finishes(rt: HostRuntime) {
    assert!(rt;
        turns(&rt, rt.alloc())
            == Ok((
                WorkerTurn::Sum,
                WorkerTurn::Empty,
                Some(WorkerTurn::Finished)
            ))
    );
}

// Turns until a `Finish`, or until the lane is empty after all was submitted. What was done, in order.
fn serve<R: Wait>(
    rt: &R,
    alloc: Global,
    worker: TakeEnd<WorkItem>,
    over: &AtomicU64,
) -> Option<Vec<Done>> {
    let mut worker = worker;
    let mut dones = Vec::new(alloc);
    for _ in rt.forever() {
        let over = over.load(Ordering::SeqCst) > 0;
        match Pool::worker_turn(rt, alloc, &mut worker) {
            Worked::Did(done) => dones.push(done).ok()?,
            Worked::Empty if over => return None,
            Worked::Empty => thread::yield_now(),
            Worked::Finished => return Some(dones),
            Worked::NoMemory(_) => return None,
        }
    }
    unreachable!()
}

// Submits job after job, of one key after the other, and then a `Finish` for each worker.
fn submit_all<R: Wait>(rt: &R, alloc: Global, pool: Pool, over: &AtomicU64) -> bool {
    let mut pool = pool;
    let sent = submit_each(rt, alloc, &mut pool).is_ok();
    for end in &mut pool.into_lanes() {
        let _ = end.put(rt, WorkItem::Finish);
    }
    over.store(1, Ordering::SeqCst);
    sent
}

fn submit_each<R: Wait>(rt: &R, alloc: Global, pool: &mut Pool) -> Result<(), NoMemory> {
    for number in 0..JOBS {
        let key = (number % u64::from(KEYS)) as u32;
        let job = Job {
            port: 0,
            number,
            key,
            code: 1,
            input: Piece::of_slice(alloc, &number.to_be_bytes())?,
        };
        if let Err((_, no_memory)) = pool.submit(rt, job) {
            return Err(no_memory);
        }
    }
    Ok(())
}

// A thread for each worker, and one that submits.
fn run<R: Threads + Wait + Sync>(
    rt: &R,
    alloc: Global,
    pool: Pool,
    workers: Vec<TakeEnd<WorkItem>>,
    over: &AtomicU64,
) -> (bool, Option<Vec<Option<Vec<Done>>>>) {
    join(
        rt,
        || submit_all(rt, alloc, pool, over),
        || serve_all(rt, alloc, workers, over),
    )
}

fn serve_all<R: Threads + Wait + Sync>(
    rt: &R,
    alloc: Global,
    workers: Vec<TakeEnd<WorkItem>>,
    over: &AtomicU64,
) -> Option<Vec<Option<Vec<Done>>>> {
    thread::map_vec(rt, workers, &|worker| serve(rt, alloc, worker, over)).ok()
}

/// The ends of the workers' lanes, those that put and those that take.
fn open_lanes(alloc: Global) -> Result<(Vec<SendEnd<WorkItem>>, Vec<TakeEnd<WorkItem>>), NoMemory> {
    let mut ends = Vec::new(alloc);
    let mut workers = Vec::new(alloc);
    for _ in 0..WORKERS {
        let (end, worker) = lane::<WorkItem>(alloc, Snapshot::of(&()))?;
        ends.push(end)?;
        workers.push(worker)?;
    }
    Ok((ends, workers))
}

/// What each worker did of the jobs that a pool submits, in order.
fn work_all<R: Threads + Wait + Sync>(rt: &R, alloc: Global) -> Option<Vec<Option<Vec<Done>>>> {
    let (ends, workers) = open_lanes(alloc).ok()?;
    if ends.is_empty() {
        return None;
    }
    let over = AtomicU64::new(0);
    match run(rt, alloc, Pool::new(ends), workers, &over) {
        (true, dones) => dones,
        (false, _) => None,
    }
}

/// How many jobs of a key a worker did, where it did all of them and in order.
fn count_of_key(dones: &[Done], key: u32) -> Option<u64> {
    let mut next = u64::from(key);
    let mut count: u64 = 0;
    for done in dones {
        if done.number % u64::from(KEYS) == u64::from(key) {
            if done.number != next {
                return None;
            }
            next = next.saturating_add(u64::from(KEYS));
            count = count.saturating_add(1);
        }
    }
    if next >= JOBS { Some(count) } else { None }
}

/// How many workers there were, and how many jobs they did, where each did all jobs of its keys and in order.
fn count_of_all(dones: &[Option<Vec<Done>>]) -> Option<(usize, u64)> {
    let mut all: u64 = 0;
    for key in 0..KEYS {
        let Some(Some(of_worker)) = dones.get(key as usize % WORKERS) else {
            return None;
        };
        all = all.saturating_add(count_of_key(of_worker.as_slice(), key)?);
    }
    Some((dones.len(), all))
}

/// How many workers there were, and how many jobs they did, where each did all jobs of its keys and in order.
fn count_worked<R: Threads + Wait + Sync>(rt: &R, alloc: Global) -> Option<(usize, u64)> {
    match &work_all(rt, alloc) {
        Some(dones) => count_of_all(dones.as_slice()),
        None => None,
    }
}

#[test]
fn workers_keep_the_order_of_each_key(rt: HostRuntime) {
    assert!(rt; count_worked(&rt, rt.alloc()) == Some((WORKERS, JOBS)));
}
