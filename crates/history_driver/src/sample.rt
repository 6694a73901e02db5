//! The sample drivers that start.
ghost use Rattle.std.specs.Prelude.{◌≡◌, ◌≤◌, [], None, false, length, IfOk, IfErr, IfNone, IfSome, OnOk};
ghost use Rattle.port_driver.specs.Driven.{Began, MayCall};
ghost use Rattle.recorded_calls.specs.Told.{callback_of, DidAsTold};
ghost use Rattle.history_driver.specs.Kinds.{kind_of, IsSpawn};
ghost use Rattle.history_driver.specs.Samples.{asks, sample_kind, sample_own, sample_stage};
ghost use Rattle.history_driver.specs.Calling.{HasRoom, Made};

use crate::DriverKind;
use port_driver::{Config, Driver, DriverCtx, Life, StartRefusal};
use port_model::NoMemory;
use recorded_calls::{Callback, RecordedCall};
use sample_drivers::{Digest, Echo, Store, Tally, Valve};
use std::alloc::Global;
use std::marker::Model;

/// A sample driver of a kind that doesn't refuse to start.
#[derive(Drop)]
pub(crate) enum Sample {
    Echo(Echo),
    Tally(Tally),
    Valve(Valve),
    Store(Store),
    Digest(Digest),
}

/// Calls a callback, and records what it answers, if it does.
fn call_back<D: Driver>(
    alloc: Global,
    driver: &mut D,
    ctx: &mut DriverCtx,
    callback: Callback<'_>,
) -> Result<(), NoMemory>
    requires called { MayCall (D.stage driver.old) ctx.old }
    ensures kind { D.kind driver.new ≡ D.kind driver.old }
    ensures stage { D.stage driver.new ≡ Life.Started }
    ensures room { OnOk result (HasRoom ctx.old ctx.new) }
    ensures made { OnOk result (Made (D.kind driver.old) (callback_of callback.entry) (D.own driver.old) (D.own driver.new) (D.program driver.old) (D.program driver.new) ctx.old ctx.new) }
{
    match callback {
        Callback::Outputv(payload) => driver.outputv(alloc, ctx, payload),
        Callback::Control { op, bytes } => {
            let answer = driver.control(alloc, ctx, op, bytes)?;
            ctx.reply(answer)
        }
        Callback::Call { op, bytes } => {
            let answer = driver.call(alloc, ctx, op, bytes)?;
            ctx.reply(answer)
        }
        Callback::ReadyInput(event) => driver.ready_input(alloc, ctx, event),
        Callback::ReadyOutput(event) => driver.ready_output(alloc, ctx, event),
        Callback::ReadyAsync { number, output } => driver.ready_async(alloc, ctx, number, output),
        Callback::ProcessExit(process) => driver.process_exit(alloc, ctx, process),
        Callback::Flush => driver.flush(alloc, ctx),
    }
}

/// Makes a call of a driver that asks the outside nothing. Answers whether no answers are told.
fn call_as_told<D: Driver>(
    alloc: Global,
    driver: &mut D,
    ctx: &mut DriverCtx,
    call: &RecordedCall<'_>,
) -> Result<bool, NoMemory>
    requires called { MayCall (D.stage driver.old) ctx.old }
    requires asks_nothing { asks (D.kind driver.old) ≡ false }
    requires program { D.program driver.old ≡ None }
    ensures kind { D.kind driver.new ≡ D.kind driver.old }
    ensures stage { D.stage driver.new ≡ Life.Started }
    ensures room { OnOk result (HasRoom ctx.old ctx.new) }
    ensures told { IfOk result (DidAsTold (D.kind driver.old) call.now (D.own driver.old) (D.own driver.new) ctx.old ctx.new) }
{
    if !call.outside.is_empty() {
        return Ok(false);
    }
    call_back(alloc, driver, ctx, call.callback)?;
    Ok(true)
}

impl Sample {
    /// A fresh driver of this kind. Nothing for the driver of programs.
    pub(crate) fn new(kind: DriverKind) -> Option<Sample>
        ensures kind { IfSome result (λ sample. sample_kind sample ≡ kind_of kind) }
        ensures fresh { IfSome result (λ sample. sample_stage sample ≡ Life.Fresh) }
        ensures none { IfNone result (IsSpawn kind) }
    {
        match kind {
            DriverKind::Echo => Some(Sample::Echo(Echo::new())),
            DriverKind::Tally => Some(Sample::Tally(Tally::new())),
            DriverKind::Valve => Some(Sample::Valve(Valve::new())),
            DriverKind::SoftValve => Some(Sample::Valve(Valve::soft())),
            DriverKind::Store => Some(Sample::Store(Store::new())),
            DriverKind::Digest => Some(Sample::Digest(Digest::new())),
            DriverKind::Spawn => None,
        }
    }

    /// Starts the driver. It refuses for want of memory alone.
    fn start(
        &mut self,
        alloc: Global,
        ctx: &mut DriverCtx,
        config: &Config,
    ) -> Result<(), StartRefusal>
        requires fresh { sample_stage self.old ≡ Life.Fresh }
        requires queue { ctx.old.queue ≡ [] }
        requires events { ctx.old.held ≡ [] }
        requires jobs { ctx.old.next_job ≡ 0 }
        requires outside { ctx.old.outside ≡ [] }
        requires effects { ctx.old.effects ≡ [] }
        ensures kind { sample_kind self.new ≡ sample_kind self.old }
        ensures stage { OnOk result (sample_stage self.new ≡ Life.Started) }
        ensures began { OnOk result (Began (sample_kind self.old) config.now (sample_own self.new) None ctx.old ctx.new) }
        ensures refusal { IfErr result (λ refusal. refusal ≡ StartRefusal.NoMemory) }
    {
        match self {
            Sample::Echo(driver) => driver.start(alloc, ctx, config),
            Sample::Tally(driver) => driver.start(alloc, ctx, config),
            Sample::Valve(driver) => driver.start(alloc, ctx, config),
            Sample::Store(driver) => driver.start(alloc, ctx, config),
            Sample::Digest(driver) => driver.start(alloc, ctx, config),
        }
    }

    /// Makes a call of a started driver. Answers whether no answers are told.
    fn call(
        &mut self,
        alloc: Global,
        ctx: &mut DriverCtx,
        call: &RecordedCall<'_>,
    ) -> Result<bool, NoMemory>
        requires called { MayCall (sample_stage self.old) ctx.old }
        ensures kind { sample_kind self.new ≡ sample_kind self.old }
        ensures stage { sample_stage self.new ≡ Life.Started }
        ensures room { OnOk result (HasRoom ctx.old ctx.new) }
        ensures told { IfOk result (DidAsTold (sample_kind self.old) call.now (sample_own self.old) (sample_own self.new) ctx.old ctx.new) }
    {
        match self {
            Sample::Echo(driver) => call_as_told(alloc, driver, ctx, call),
            Sample::Tally(driver) => call_as_told(alloc, driver, ctx, call),
            Sample::Valve(driver) => call_as_told(alloc, driver, ctx, call),
            Sample::Store(driver) => call_as_told(alloc, driver, ctx, call),
            Sample::Digest(driver) => call_as_told(alloc, driver, ctx, call),
        }
    }
}

/// A sample driver that was started.
#[derive(Drop)]
pub(crate) struct SampleDriver {
    driver: Sample,
}

impl Model for SampleDriver {
    ghost use Rattle.std.specs.Prelude.{◌≡◌};
    ghost use Rattle.port_driver.specs.declared.life.Life.TheVariants.{Started};
    ghost use Rattle.history_driver.specs.Samples.{SampleView, sample_kind, sample_own, sample_stage};

    ghost Value = { SampleView };

    ghost view = { λ s. record { kind = sample_kind s.driver; own = sample_own s.driver } };

    ghost invariant = { λ s. sample_stage s.driver ≡ Started };
}

impl SampleDriver {
    /// Starts a fresh driver, in a context in which nothing was done.
    pub(crate) fn start(
        alloc: Global,
        ctx: &mut DriverCtx,
        mut driver: Sample,
        config: &Config,
    ) -> Result<SampleDriver, NoMemory>
        requires fresh { sample_stage driver ≡ Life.Fresh }
        requires queue { ctx.old.queue ≡ [] }
        requires events { ctx.old.held ≡ [] }
        requires jobs { ctx.old.next_job ≡ 0 }
        requires outside { ctx.old.outside ≡ [] }
        requires effects { ctx.old.effects ≡ [] }
        ensures kind { IfOk result (λ started. started.kind ≡ sample_kind driver) }
        ensures began { IfOk result (λ started. Began started.kind config.now started.own None ctx.old ctx.new) }
    {
        match driver.start(alloc, ctx, config) {
            Ok(()) => Ok(SampleDriver { driver }),
            Err(StartRefusal::NoMemory) => Err(NoMemory),
            Err(_) => unreachable!(),
        }
    }

    /// Makes a call. Answers whether no answers are told, since it asks for none.
    pub(crate) fn call(
        &mut self,
        alloc: Global,
        ctx: &mut DriverCtx,
        call: &RecordedCall<'_>,
    ) -> Result<bool, NoMemory>
        requires outside { length ctx.old.outside ≤ 524288 }
        requires effects { length ctx.old.effects ≤ 524288 }
        ensures kind { self.new.kind ≡ self.old.kind }
        ensures room { OnOk result (HasRoom ctx.old ctx.new) }
        ensures told { IfOk result (DidAsTold self.old.kind call.now self.old.own self.new.own ctx.old ctx.new) }
    {
        self.driver.call(alloc, ctx, call)
    }
}
