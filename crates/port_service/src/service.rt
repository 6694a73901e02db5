ghost use Rattle.std.specs.Prelude.{◌≡◌, ◌≢◌, ◌==◌, ◌≤◌, ◌⊎◌, ℕ, List, [], false, None, length, if◌then◌else◌, IfOk, IfErr, OnOk, OnErr};
ghost use Rattle.std.specs.List.{concat};
ghost use Rattle.port_driver.specs.Driven.{Stands};
ghost use Rattle.port_driver.specs.Faults.{failures, RisenBy};
ghost use Rattle.port_history.specs.Opening.{Opening, taken_of};
ghost use Rattle.port_history.specs.Service.{first_reason};
ghost use Rattle.port_history.specs.Ties.{failure, signal_reason, watched_by};
ghost use Rattle.port_history.specs.State.{State};
ghost use Rattle.port_model.specs.Tasks.{TaskView};
ghost use Rattle.port_driver.specs.driver_model.Drivers.{read_event_of, refusal_of, write_event_of};
ghost use Rattle.port_driver.specs.driver_model.Programs.{TellsOfProgram};
ghost use Rattle.port_driver.specs.Starting.{Refuses};
ghost use Rattle.port_service.specs.Opened.{Opened, ended};
ghost use Rattle.port_service.specs.Serves.{IsCaller, IsFlagged, IsServed, Served, Watches, standing};

use crate::calling::call_driver;
use crate::closing::{ends_driver, failure, flush_queued, halt};
use crate::handling::{Caller, Handled, PortStanding};
use crate::opening::begin;
use crate::watching::{is_flagged, note_watches};
use driver_queue::DriverQueue;
use port_driver::{Config, Driver, DriverCtx, Life, StartRefusal};
use port_model::{Effect, Items, NoMemory, Reason, Signal};
use std::alloc::Global;
use std::marker::Model;
use std::mem;

/// The driver of a port, its queue, the number of its next job, and which processes it watches.
#[derive(Drop)]
pub struct Service<D: Driver> {
    driver: D,
    queue: DriverQueue,
    next_job: u64,
    watched: Vec<bool>,
}

impl<D: Driver> Model for Service<D> {
    ghost use Rattle.std.specs.List.{concat};
    ghost use Rattle.port_service.specs.Service.{ServiceView};

    ghost Value = { ServiceView };

    ghost view = { λ s. record {
      kind = D.kind s.driver;
      own = D.own s.driver;
      stage = D.stage s.driver;
      program = D.program s.driver;
      faults = D.faults s.driver;
      queue = concat s.queue.segments;
      next_job = s.next_job;
      watched = s.watched.items;
    } };
}

/// The reason for which a port closes that is open: a failure among the effects goes before that of the signal.
fn reason_to_close(ctx: &DriverCtx, why: Option<Reason>, closing: bool) -> Option<Reason>
    ensures { result ≡ (if closing then None else first_reason (failure ctx.now.effects) why) }
{
    if closing {
        return None;
    }
    match failure(ctx.effects()) {
        Some(reason) => Some(reason),
        None => why,
    }
}

impl<D: Driver> Service<D> {
    /// Starts a fresh driver for a port with these options and this owner, among so many processes. Answers what serves the port, and the effects
    /// of the start, in their order. Where the driver refuses, or memory is wanting, it comes back: stopped, or fresh if it wasn't called.
    pub fn open(
        alloc: Global,
        driver: D,
        config: &Config,
        owner: u32,
        processes: u32,
    ) -> Result<(Service<D>, Items<Effect>), (D, StartRefusal)>
        requires { D.stage driver ≡ Life.Fresh }
        ensures opened { IfOk result (λ r. Opened (D.kind driver) config.now owner processes (D.faults driver) r.0 r.1) }
        ensures starts { OnOk result (refusal_of (D.kind driver) config.now ≡ None) }
        ensures kind { IfErr result (λ r. D.kind r.0 ≡ D.kind driver) }
        ensures back { IfErr result (λ r. (D.stage r.0 ≡ Life.Fresh) ⊎ (D.stage r.0 ≡ Life.Stopped)) }
        ensures faults { IfErr result (λ r. D.faults driver ≤ D.faults r.0) }
        ensures refusal { IfErr result (λ r. Refuses (D.kind driver) config.now (D.faults driver) (D.faults r.0) r.1) }
    {
        let mut driver = driver;
        let Ok(mut watched) = vec![in alloc; false; processes as usize] else {
            return Err((driver, StartRefusal::NoMemory));
        };
        let ctx = match begin(alloc, &mut driver, config, owner) {
            Ok(ctx) => ctx,
            Err(refusal) => return Err((driver, refusal)),
        };
        let next_job = ctx.next_job();
        let (queue, _, effects) = ctx.finish();
        note_watches(&mut watched, effects.as_slice());
        let service = Service {
            driver,
            queue,
            next_job,
            watched,
        };
        Ok((service, effects))
    }

    /// The read event and the write event of its program, 0 and 0 where it has none.
    pub fn program_events(&self) -> (u32, u32)
        ensures read { result.0 ≡ read_event_of self.now.own }
        ensures write { result.1 ≡ write_event_of self.now.own }
    {
        self.driver.events()
    }

    /// Tells the driver that an event that it gave up is waited for no more.
    pub fn stop_select(&mut self, event: u32)
        ensures same { self.new ≡ record self.old { faults = self.new.faults } }
        ensures faults { self.old.faults ≤ self.new.faults }
    {
        self.driver.stop_select(event);
    }

    /// Stops the driver, if it is started.
    pub fn end(&mut self)
        ensures stage { self.new.stage ≡ ended (self.old.stage) }
        ensures told { TellsOfProgram self.new.own self.new.program }
        ensures kind { self.new.kind ≡ self.old.kind }
        ensures faults { self.old.faults ≤ self.new.faults }
        ensures same { self.old.stage ≢ Life.Started → self.new ≡ self.old }
    {
        if self.driver.life() == Life::Started {
            self.driver.stop();
        }
    }

    /// The driver.
    pub fn into_driver(self) -> D
        ensures kind { D.kind result ≡ self.kind }
        ensures own { D.own result ≡ self.own }
        ensures stage { D.stage result ≡ self.stage }
        ensures program { D.program result ≡ self.program }
        ensures faults { D.faults result ≡ self.faults }
    {
        self.driver
    }

    /// Handles a task of a port that is open or closing: makes the callback of its signal, has the driver flushed where the port closes with bytes
    /// queued, and stops it once nothing is queued any more. `why` is the reason for which the signal closes an open port, if it does. After want of
    /// memory the driver stands as its callback left it, and its queue is given up.
    pub fn handle(
        &mut self,
        alloc: Global,
        caller: Caller,
        signal: &Signal,
        why: Option<Reason>,
        stands: PortStanding<'_>,
    ) -> Result<Handled, NoMemory>
        requires started { self.old.stage ≡ Life.Started }
        requires held { length stands.held.now ≤ 64 }
        ensures kind { self.new.kind ≡ self.old.kind }
        ensures faults { self.old.faults ≤ self.new.faults }
        ensures failed { IfOk result (λ made. RisenBy (failures made.outside) self.old.faults self.new.faults) }
        ensures stage { IfOk result (λ made. self.new.stage ≡ (if made.stops then Life.Stopped else Life.Started)) }
        ensures err { OnErr result (self.new.stage ≡ Life.Started) }
        ensures flags { length self.new.watched ≡ length self.old.watched }
        ensures watches { IfOk result (λ made. (before : List ℕ) → Watches self.old.watched before → Watches self.new.watched (watched_by made.effects before)) }
        ensures serves { IfOk result (λ made. (port : Opening) (s : State) (seq : ℕ) (task : TaskView) → port.kind ≡ self.old.kind → task.signal ≡ signal.now
            → IsCaller s caller → why ≡ signal_reason s.ties caller.from signal.now → IsServed s stands.entry.closing → IsFlagged self.old.watched s.watched caller.from
            → Stands port.kind port.config s.calls self.old.own self.old.program (standing self.old.next_job stands.entry.held.now self.old.queue)
            → Served port s (taken_of caller.from seq task made.outside made.effects) made.reason made.stops self.new) }
    {
        let PortStanding { closing, held } = stands;
        let watched = is_flagged(&self.watched, caller.from);
        let queue = mem::replace(&mut self.queue, DriverQueue::new(alloc));
        let mut ctx = context(alloc, caller.process, self.next_job, held, queue)?;
        call_driver(
            alloc,
            &mut self.driver,
            &mut ctx,
            caller.owns,
            watched,
            signal,
        )?;
        let reason = reason_to_close(&ctx, why, closing);
        flush_queued(alloc, &mut self.driver, &mut ctx, &reason)?;
        let stops = ends_driver(&ctx, &reason, closing);
        halt(&mut self.driver, stops);
        self.next_job = ctx.next_job();
        let (queue, outside, effects) = ctx.finish();
        self.queue = queue;
        note_watches(&mut self.watched, effects.as_slice());
        Ok(Handled {
            outside,
            effects,
            reason,
            stops,
        })
    }
}

/// A context in which nothing was done.
#[inline(always)]
fn context(
    alloc: Global,
    caller: u32,
    next_job: u64,
    held: &[u32],
    queue: DriverQueue,
) -> Result<DriverCtx, NoMemory>
    requires { length held.now ≤ 64 }
    ensures { IfOk result (λ ctx. ctx ≡ record { caller = caller; next_job = next_job; held = held.now; queue = concat queue.segments; outside = []; effects = [] }) }
{
    match DriverCtx::new(alloc, caller, next_job, held, queue) {
        Ok(ctx) => Ok(ctx),
        Err((_, no_memory)) => Err(no_memory),
    }
}
