//! A driver with its queue, to which callbacks are made one after another, and what the last one showed.
ghost use Rattle.std.specs.Prelude.{◌≡◌, [], IfSome};
ghost use Rattle.std.specs.List.{concat};
ghost use Rattle.port_driver.specs.Driven.{MayCall};

use crate::shown::{ShownEffect, are_shown};
use driver_queue::DriverQueue;
use port_driver::{Config, Driver, DriverCtx, Life, ReplyTo, StartRefusal};
use port_model::{Effect, IoVec, Items, Piece};
use std::alloc::Global;
use std::mem;

/// A callback of a driver.
#[derive(Clone, Copy)]
pub(crate) enum DriverCallback {
    /// A command of these segments is handed to it.
    Command(&'static [&'static [u8]]),
    /// It makes an operation on some bytes.
    Control(u32, &'static [u8]),
    /// It makes an operation on the external form of a term.
    Call(u32, &'static [u8]),
    /// It is told that its job of this number is done, with this output.
    JobDone(u64, &'static [u8]),
    /// It is told that this process has ended.
    ProcessEnded(u32),
    Flush,
}

/// What is seen of a port.
#[derive(Clone, Copy)]
pub(crate) enum DriverSight {
    /// The last callback had these effects.
    Did(&'static [ShownEffect]),
    /// The last callback answered these bytes.
    Replied(&'static [u8]),
    /// The last callback refused the operation.
    Refused,
    SoftBusy(bool),
    /// The queue has so many segments, of which the first is these bytes.
    Segments((usize, &'static [u8])),
    QueueIsEmpty,
}

#[derive(Clone, Copy)]
pub(crate) enum DriverStep {
    Make(DriverCallback),
    See(DriverSight),
}

/// A driver, its queue and the number of its next job, and what its last callback answered and did.
#[derive(Drop)]
pub(crate) struct DrivenPort<D: Driver> {
    alloc: Global,
    driver: D,
    queue: DriverQueue,
    next_job: u64,
    answer: Option<ReplyTo>,
    effects: Items<Effect>,
}

/// A context of a callback for process 7.
pub(crate) fn context(alloc: Global, next_job: u64, queue: DriverQueue) -> Option<DriverCtx>
    ensures { IfSome result (λ ctx. ctx ≡ record { caller = 7; next_job = next_job; held = []; queue = concat queue.segments; outside = []; effects = [] }) }
{
    DriverCtx::new(alloc, 7, next_job, &[], queue).ok()
}

/// A vector of these segments.
pub(crate) fn vector(alloc: Global, segments: &[&[u8]]) -> Option<IoVec> {
    let mut vector = IoVec::new(alloc);
    for segment in segments {
        let piece = Piece::of_slice(alloc, segment).ok()?;
        vector.push(piece).ok()?;
    }
    Some(vector)
}

/// Whether a driver has this name.
pub(crate) fn is_named<D: Driver>(driver: &D, wanted: &[u8]) -> bool {
    driver.name().as_bytes() == wanted
}

/// Starts a driver, which is a fault of the start where it isn't fresh.
fn start<D: Driver>(alloc: Global, driver: &mut D) -> Result<(), StartRefusal> {
    if driver.life() != Life::Fresh {
        return Err(StartRefusal::StartFault);
    }
    let Ok(config) = Config::plain(alloc) else {
        return Err(StartRefusal::NoMemory);
    };
    let Some(mut ctx) = context(alloc, 0, DriverQueue::new(alloc)) else {
        return Err(StartRefusal::NoMemory);
    };
    driver.start(alloc, &mut ctx, &config)
}

/// Whether a driver refuses to start for this reason, and is stopped then.
pub(crate) fn refuses<D: Driver>(alloc: Global, driver: D, wanted: StartRefusal) -> bool {
    let mut driver = driver;
    start(alloc, &mut driver) == Err(wanted) && driver.life() == Life::Stopped
}

/// Hands a command to a driver.
fn command<D: Driver>(
    alloc: Global,
    driver: &mut D,
    ctx: &mut DriverCtx,
    segments: &[&[u8]],
) -> bool
    requires { MayCall (D.stage driver.old) ctx.old }
{
    match &vector(alloc, segments) {
        Some(payload) => driver.outputv(alloc, ctx, payload).is_ok(),
        None => false,
    }
}

/// What a driver answers to an operation on some bytes.
fn control<D: Driver>(
    alloc: Global,
    driver: &mut D,
    ctx: &mut DriverCtx,
    op: u32,
    bytes: &[u8],
) -> Option<ReplyTo>
    requires { MayCall (D.stage driver.old) ctx.old }
{
    match &Piece::of_slice(alloc, bytes) {
        Ok(piece) => driver.control(alloc, ctx, op, piece).ok(),
        Err(_) => None,
    }
}

/// What a driver answers to an operation on the external form of a term.
fn call<D: Driver>(
    alloc: Global,
    driver: &mut D,
    ctx: &mut DriverCtx,
    op: u32,
    bytes: &[u8],
) -> Option<ReplyTo>
    requires { MayCall (D.stage driver.old) ctx.old }
{
    match &Piece::of_slice(alloc, bytes) {
        Ok(piece) => driver.call(alloc, ctx, op, piece).ok(),
        Err(_) => None,
    }
}

/// Tells a driver that its job of this number is done.
fn job_done<D: Driver>(
    alloc: Global,
    driver: &mut D,
    ctx: &mut DriverCtx,
    number: u64,
    output: &[u8],
) -> bool
    requires { MayCall (D.stage driver.old) ctx.old }
{
    match &Piece::of_slice(alloc, output) {
        Ok(piece) => driver.ready_async(alloc, ctx, number, piece).is_ok(),
        Err(_) => false,
    }
}

/// Whether an operation was made, and what it answered.
fn answered(answer: Option<ReplyTo>) -> (bool, Option<ReplyTo>) {
    (answer.is_some(), answer)
}

/// Makes a callback of a driver. Whether it was made, and what it answered.
fn call_back<D: Driver>(
    alloc: Global,
    driver: &mut D,
    ctx: &mut DriverCtx,
    callback: DriverCallback,
) -> (bool, Option<ReplyTo>)
    requires { MayCall (D.stage driver.old) ctx.old }
{
    match callback {
        DriverCallback::Command(segments) => (command(alloc, driver, ctx, segments), None),
        DriverCallback::Control(op, bytes) => answered(control(alloc, driver, ctx, op, bytes)),
        DriverCallback::Call(op, bytes) => answered(call(alloc, driver, ctx, op, bytes)),
        DriverCallback::JobDone(number, output) => {
            (job_done(alloc, driver, ctx, number, output), None)
        }
        DriverCallback::ProcessEnded(process) => {
            (driver.process_exit(alloc, ctx, process).is_ok(), None)
        }
        DriverCallback::Flush => (driver.flush(alloc, ctx).is_ok(), None),
    }
}

impl<D: Driver> DrivenPort<D> {
    /// A port that this driver serves.
    fn open(alloc: Global, mut driver: D) -> Option<DrivenPort<D>> {
        if start(alloc, &mut driver).is_err() {
            return None;
        }
        Some(DrivenPort {
            alloc,
            driver,
            queue: DriverQueue::new(alloc),
            next_job: 0,
            answer: None,
            effects: Items::new(alloc),
        })
    }

    /// Whether the queue has so many segments, of which the first is these bytes.
    fn has_segments(&self, wanted: (usize, &[u8])) -> bool {
        let (count, first) = wanted;
        let is_first = matches!(self.queue.peekq(0), Some(piece) if piece.as_slice() == first);
        is_first
            && count > 0
            && self.queue.peekq(count - 1).is_some()
            && self.queue.peekq(count).is_none()
    }

    /// The context of the next callback, which has the queue, where the driver is started.
    fn begin(&mut self) -> Option<DriverCtx>
        ensures { IfSome result (λ ctx. MayCall (D.stage self.new.driver) ctx) }
    {
        if self.driver.life() != Life::Started {
            return None;
        }
        let queue = mem::replace(&mut self.queue, DriverQueue::new(self.alloc));
        context(self.alloc, self.next_job, queue)
    }

    /// Takes what a callback answered and did, once it has ended. The queue comes back.
    fn end(&mut self, ctx: DriverCtx, answer: Option<ReplyTo>) {
        self.next_job = ctx.next_job();
        let (queue, _, effects) = ctx.finish();
        self.queue = queue;
        self.answer = answer;
        self.effects = effects;
    }

    /// Makes a callback.
    fn make(&mut self, callback: DriverCallback) -> bool {
        let Some(mut ctx) = self.begin() else {
            return false;
        };
        let (made, answer) = call_back(self.alloc, &mut self.driver, &mut ctx, callback);
        self.end(ctx, answer);
        made
    }

    /// Whether the driver's port shows this.
    fn shows(&self, sight: DriverSight) -> bool {
        match sight {
            DriverSight::Did(wanted) => are_shown(self.effects.as_slice(), wanted),
            DriverSight::Replied(wanted) => {
                matches!(&self.answer, Some(ReplyTo::Bytes(bytes)) if bytes.as_slice() == wanted)
            }
            DriverSight::Refused => matches!(&self.answer, Some(ReplyTo::Badarg)),
            DriverSight::SoftBusy(wanted) => self.driver.soft_busy() == wanted,
            DriverSight::Segments(wanted) => self.has_segments(wanted),
            DriverSight::QueueIsEmpty => self.queue.is_empty(),
        }
    }
}

/// The number of the first step that shows something else, if one does, or of the step behind the last where the driver doesn't start.
pub(crate) fn first_wrong<D: Driver>(
    alloc: Global,
    driver: D,
    steps: &[DriverStep],
) -> Option<usize> {
    let Some(mut port) = DrivenPort::open(alloc, driver) else {
        return Some(steps.len());
    };
    for (at, step) in steps.iter().enumerate() {
        let goes = match *step {
            DriverStep::Make(callback) => port.make(callback),
            DriverStep::See(sight) => port.shows(sight),
        };
        if !goes {
            return Some(at);
        }
    }
    None
}
