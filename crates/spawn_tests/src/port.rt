//! A port of a program of memory, to whose driver callbacks are made one after another, and what they show.
ghost use Rattle.std.specs.Prelude.{◌≡◌, [], IfSome};
ghost use Rattle.port_driver.specs.Driven.{MayCall};

use crate::shown::shows;
use driver_queue::DriverQueue;
use outside::{MemProgram, MemSpawner};
use packet_framing::Mode;
use port_driver::{Config, Driver, DriverCtx, Life, StartRefusal};
use port_model::{IoVec, Piece};
use spawn_driver::{SpawnDriver, spawn_driver};
use std::alloc::Global;
use std::mem;

/// The read event of the program.
const READ: u32 = 10;

/// The write event of the program.
const WRITE: u32 = 11;

/// What is done with a port of a program and recorded, or seen of it.
#[derive(Clone, Copy)]
pub(crate) enum ProgramStep<'a> {
    /// A command of the first bytes is recorded as the second ones.
    Takes(&'a [u8], &'a [u8]),
    /// A call because there is something to read is recorded so.
    Reads(&'a [u8]),
    /// A call because there is room to write is recorded so.
    Writes(&'a [u8]),
    /// These bytes are queued.
    HasQueued(&'a [u8]),
}

/// A call of the driver of a program.
#[derive(Clone, Copy)]
enum ProgramCall<'a> {
    /// A command of these bytes is handed to it.
    Take(&'a [u8]),
    /// There is something to read.
    Read,
    /// There is room to write.
    Write,
}

/// The options of a port with this command text, and else none.
pub(crate) fn running(alloc: Global, run: &[u8]) -> Option<Config> {
    let run = Piece::of_slice(alloc, run).ok()?;
    let mut config = Config::plain(alloc).ok()?;
    config.run = run;
    Some(config)
}

/// The options of a port of a program, with this framing.
pub(crate) fn options(alloc: Global, mode: Mode) -> Option<Config> {
    let mut config = running(alloc, b"program")?;
    config.mode = mode;
    Some(config)
}

/// What starts this program.
pub(crate) fn spawner(alloc: Global, program: MemProgram) -> Option<MemSpawner> {
    let mut spawner = MemSpawner::new(alloc, READ);
    let is_added = spawner.add(program).is_ok();
    is_added.then_some(spawner)
}

/// A context for the start of a driver.
fn fresh_context(alloc: Global) -> Option<DriverCtx>
    ensures { IfSome result (λ ctx. ctx ≡ record { caller = 7; next_job = 0; held = []; queue = []; outside = []; effects = [] }) }
{
    DriverCtx::new(alloc, 7, 0, &[], DriverQueue::new(alloc)).ok()
}

/// The queue of a callback that has ended.
fn queue_of(ctx: DriverCtx) -> DriverQueue {
    let (queue, _, _) = ctx.finish();
    queue
}

/// Starts a driver, which is refused for no reason of its own where it isn't fresh. The queue after its start.
pub(crate) fn start<D: Driver>(
    alloc: Global,
    driver: &mut D,
    config: &Config,
) -> Result<DriverQueue, StartRefusal> {
    if driver.life() != Life::Fresh {
        return Err(StartRefusal::General);
    }
    let Some(mut ctx) = fresh_context(alloc) else {
        return Err(StartRefusal::NoMemory);
    };
    match driver.start(alloc, &mut ctx, config) {
        Ok(()) => Ok(queue_of(ctx)),
        Err(refusal) => Err(refusal),
    }
}

/// The context of a callback, which has this queue.
fn context(alloc: Global, queue: DriverQueue) -> Option<DriverCtx>
    ensures outside { IfSome result (λ ctx. ctx.outside ≡ []) }
    ensures effects { IfSome result (λ ctx. ctx.effects ≡ []) }
{
    DriverCtx::new(alloc, 7, 0, &[READ, WRITE], queue).ok()
}

/// The payload of a command of these bytes.
fn payload(alloc: Global, bytes: &[u8]) -> Option<IoVec> {
    match Piece::of_slice(alloc, bytes) {
        Ok(piece) => Some(IoVec::of_piece(alloc, piece)),
        Err(_) => None,
    }
}

/// Hands a command of these bytes to a driver.
fn take<D: Driver>(alloc: Global, driver: &mut D, ctx: &mut DriverCtx, bytes: &[u8]) -> bool
    requires { MayCall (D.stage driver.old) ctx.old }
{
    match &payload(alloc, bytes) {
        Some(payload) => driver.outputv(alloc, ctx, payload).is_ok(),
        None => false,
    }
}

/// Makes a call of a driver.
fn call_back<D: Driver>(
    alloc: Global,
    driver: &mut D,
    ctx: &mut DriverCtx,
    call: ProgramCall<'_>,
) -> bool
    requires { MayCall (D.stage driver.old) ctx.old }
{
    match call {
        ProgramCall::Take(bytes) => take(alloc, driver, ctx, bytes),
        ProgramCall::Read => driver.ready_input(alloc, ctx, READ).is_ok(),
        ProgramCall::Write => driver.ready_output(alloc, ctx, WRITE).is_ok(),
    }
}

/// A driver and its queue.
#[derive(Drop)]
pub(crate) struct ProgramPort<D: Driver> {
    alloc: Global,
    driver: D,
    queue: DriverQueue,
}

impl<D: Driver> ProgramPort<D> {
    /// A port that this driver serves.
    pub(crate) fn open(alloc: Global, mut driver: D, config: &Config) -> Option<ProgramPort<D>> {
        let Ok(queue) = start(alloc, &mut driver, config) else {
            return None;
        };
        Some(ProgramPort {
            alloc,
            driver,
            queue,
        })
    }

    /// Whether these bytes are queued.
    fn has_queued(&self, bytes: &[u8]) -> bool {
        matches!(&self.queue.to_piece(), Ok(queued) if queued.as_slice() == bytes)
    }

    /// The context of the next call, which has the queue, where the driver is started.
    fn begin(&mut self) -> Option<DriverCtx>
        ensures { IfSome result (λ ctx. MayCall (D.stage self.new.driver) ctx) }
    {
        if self.driver.life() != Life::Started {
            return None;
        }
        let queue = mem::replace(&mut self.queue, DriverQueue::new(self.alloc));
        context(self.alloc, queue)
    }

    /// Whether a call, once it has ended, is recorded so. The queue comes back.
    fn end(&mut self, ctx: DriverCtx, wanted: &[u8]) -> bool {
        let (queue, answers, effects) = ctx.finish();
        self.queue = queue;
        shows(self.alloc, answers.as_slice(), effects.as_slice(), wanted)
    }

    /// Whether a call is made, and recorded so.
    fn records(&mut self, call: ProgramCall<'_>, wanted: &[u8]) -> bool {
        let Some(mut ctx) = self.begin() else {
            return false;
        };
        let is_made = call_back(self.alloc, &mut self.driver, &mut ctx, call);
        let is_shown = self.end(ctx, wanted);
        is_made && is_shown
    }

    /// Whether a step goes so.
    fn goes(&mut self, step: ProgramStep<'_>) -> bool {
        match step {
            ProgramStep::Takes(bytes, wanted) => self.records(ProgramCall::Take(bytes), wanted),
            ProgramStep::Reads(wanted) => self.records(ProgramCall::Read, wanted),
            ProgramStep::Writes(wanted) => self.records(ProgramCall::Write, wanted),
            ProgramStep::HasQueued(bytes) => self.has_queued(bytes),
        }
    }
}

/// The number of the first step that goes otherwise, if one does, or of the step behind the last where there is no port.
pub(crate) fn first_wrong<D: Driver>(
    port: Option<ProgramPort<D>>,
    steps: &[ProgramStep<'_>],
) -> Option<usize> {
    let Some(mut port) = port else {
        return Some(steps.len());
    };
    for (at, step) in steps.iter().enumerate() {
        if !port.goes(*step) {
            return Some(at);
        }
    }
    None
}

/// A port of this program, with these options.
fn serve(
    alloc: Global,
    program: MemProgram,
    config: &Config,
) -> Option<ProgramPort<SpawnDriver<MemSpawner>>> {
    match spawner(alloc, program) {
        Some(spawner) => ProgramPort::open(alloc, spawn_driver(spawner), config),
        None => None,
    }
}

/// The same as `first_wrong` of a port of this program, with these options.
pub(crate) fn first_wrong_served(
    alloc: Global,
    program: MemProgram,
    config: &Config,
    steps: &[ProgramStep<'_>],
) -> Option<usize> {
    first_wrong(serve(alloc, program, config), steps)
}

/// The same with this framing, and else no options.
pub(crate) fn first_wrong_framed(
    alloc: Global,
    program: MemProgram,
    mode: Mode,
    steps: &[ProgramStep<'_>],
) -> Option<usize> {
    match &options(alloc, mode) {
        Some(config) => first_wrong_served(alloc, program, config, steps),
        None => Some(steps.len()),
    }
}
