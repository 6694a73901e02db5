ghost use Rattle.std.specs.Prelude.{◌≡◌, ◌≤◌, [], None, length, OnOk};
ghost use Rattle.driver_model.specs.Calls.{Spawn, ReadyInput, ReadyOutput};
ghost use Rattle.port_driver.specs.Driven.{Did, KeepsRoom};
ghost use Rattle.spawn_driver.specs.Answered.{Answered, stand_of};
ghost use Rattle.spawn_driver.specs.Serving.{all_faults, own_of, program_of};

use crate::kept::Kept;
use crate::output::{front, select};
use crate::starting::{begin, is_blank};
use crate::told::MOST_FETCHED;
use outside::{Child, Fetched, Offered, SpawnFault, Spawner};
use port_driver::{Config, Driver, DriverCtx, Life, ReplyTo, StartRefusal};
use port_model::{Dir, IoVec, NoMemory, Outside, Piece, Reason};
use std::alloc::Global;
use std::marker::Model;

/// A program that was started, with what its driver keeps.
#[derive(Drop)]
struct Ported<C: Child> {
    child: C,
    kept: Kept,
}

impl<C: Child> Model for Ported<C> {
    ghost use Rattle.spawn_driver.specs.Serving.{Serving};

    ghost Value = { Serving };

    ghost view = { λ p. record { child = C.shows p.child; faults = C.faults p.child; kept = p.kept } };
}

/// A driver of programs: its port's program is started with the command text of the port's options.
#[derive(Drop)]
pub struct SpawnDriver<S: Spawner> {
    spawner: S,
    life: Life,
    program: Option<Ported<S::Program>>,
}

impl<S: Spawner> Model for SpawnDriver<S> {
    ghost use Rattle.spawn_driver.specs.Serving.{SpawnView, HasProgram};

    ghost Value = { SpawnView };

    ghost view = { λ d. record { life = d.life; starts = S.faults d.spawner; program = d.program } };

    ghost invariant = { λ d. HasProgram d.life d.program };
}

/// A fresh driver, whose program the spawner starts.
pub fn spawn_driver<S: Spawner>(spawner: S) -> SpawnDriver<S>
    ensures { result ≡ record { life = Life.Fresh; starts = S.faults spawner; program = None } }
{
    SpawnDriver {
        spawner,
        life: Life::Fresh,
        program: None,
    }
}

impl<S: Spawner + Drop> Driver for SpawnDriver<S>
where
    S::Program: Drop,
{
    ghost kind = { λ _. Spawn };

    ghost own = { λ d. own_of d.program };

    ghost stage = { λ d. d.life };

    ghost faults = { λ d. all_faults d };

    ghost program = { λ d. program_of d.program };

    fn name(&self) -> Reason {
        match Reason::of_bytes(b"spawn") {
            Ok(name) => name,
            Err(_) => unreachable!(),
        }
    }

    fn soft_busy(&self) -> bool {
        false
    }

    fn events(&self) -> (u32, u32) {
        match &self.program {
            Some(program) => (program.kept.read, program.kept.write),
            None => (0, 0),
        }
    }

    fn life(&self) -> Life {
        self.life
    }

    fn start(
        &mut self,
        alloc: Global,
        ctx: &mut DriverCtx,
        config: &Config,
    ) -> Result<(), StartRefusal> {
        self.life = Life::Stopped;
        if is_blank(config.run.as_slice()) {
            return Err(StartRefusal::Badarg);
        }
        let Ok(mut kept) = begin(alloc, config) else {
            return Err(StartRefusal::NoMemory);
        };
        let mut child = match self.spawner.start(alloc, config.run.as_slice()) {
            Ok(child) => child,
            Err(SpawnFault::Failed) => return Err(StartRefusal::StartFault),
            Err(SpawnFault::NoMemory) => return Err(StartRefusal::NoMemory),
        };
        (kept.read, kept.write) = child.events();
        if select(ctx, kept.read, Dir::Read, true).is_err() {
            child.stop();
            return Err(StartRefusal::NoMemory);
        }
        self.program = Some(Ported { child, kept });
        self.life = Life::Started;
        Ok(())
    }

    fn outputv(
        &mut self,
        alloc: Global,
        ctx: &mut DriverCtx,
        payload: &IoVec,
    ) -> Result<(), NoMemory> {
        match &mut self.program {
            Some(program) => program.kept.output(alloc, ctx, payload),
            None => unreachable!(),
        }
    }

    fn control(
        &mut self,
        _alloc: Global,
        _ctx: &mut DriverCtx,
        _op: u32,
        _bytes: &Piece,
    ) -> Result<ReplyTo, NoMemory> {
        Ok(ReplyTo::Badarg)
    }

    fn call(
        &mut self,
        _alloc: Global,
        _ctx: &mut DriverCtx,
        _op: u32,
        _bytes: &Piece,
    ) -> Result<ReplyTo, NoMemory> {
        Ok(ReplyTo::Badarg)
    }

    fn ready_input(
        &mut self,
        alloc: Global,
        ctx: &mut DriverCtx,
        _event: u32,
    ) -> Result<(), NoMemory>
        requires started { self.old.life ≡ Life.Started }
        requires outside { length ctx.old.outside ≤ 524288 }
        requires effects { length ctx.old.effects ≤ 524288 }
        ensures faults { all_faults self.old ≤ all_faults self.new }
        ensures stage { self.new.life ≡ Life.Started }
        ensures room { KeepsRoom ctx.old ctx.new }
        ensures did { OnOk result (Did Spawn (ReadyInput _event) (own_of self.old.program) (own_of self.new.program) (program_of self.old.program) (program_of self.new.program) ctx.old ctx.new []) }

        // What is recorded is what the program answered.
        ensures answered { OnOk result (Answered ctx.old.queue (stand_of self.old.program) (all_faults self.old) (all_faults self.new) ctx.old.outside ctx.new.outside) }
    {
        let Some(Ported { child, kept }) = &mut self.program else {
            unreachable!()
        };
        match child.fetch(alloc, MOST_FETCHED) {
            Fetched::Bytes(bytes) => kept.receive(ctx, Piece::of_vec(bytes)?),
            Fetched::Again => ctx.answered(Outside::Again),
            Fetched::End if kept.config.exit_status => {
                let status = child.status();
                kept.end(ctx, Some(status))
            }
            Fetched::End => kept.end(ctx, None),
            Fetched::Failed => kept.note_failure(ctx),
            Fetched::NoMemory => Err(NoMemory),
        }
    }

    fn ready_output(
        &mut self,
        _alloc: Global,
        ctx: &mut DriverCtx,
        _event: u32,
    ) -> Result<(), NoMemory>
        requires started { self.old.life ≡ Life.Started }
        requires outside { length ctx.old.outside ≤ 524288 }
        requires effects { length ctx.old.effects ≤ 524288 }
        ensures faults { all_faults self.old ≤ all_faults self.new }
        ensures stage { self.new.life ≡ Life.Started }
        ensures room { KeepsRoom ctx.old ctx.new }
        ensures did { OnOk result (Did Spawn (ReadyOutput _event) (own_of self.old.program) (own_of self.new.program) (program_of self.old.program) (program_of self.new.program) ctx.old ctx.new []) }

        // What is recorded is what the program answered.
        ensures answered { OnOk result (Answered ctx.old.queue (stand_of self.old.program) (all_faults self.old) (all_faults self.new) ctx.old.outside ctx.new.outside) }
    {
        let Some(Ported { child, kept }) = &mut self.program else {
            unreachable!()
        };
        let bytes = front(ctx)?;
        match child.offer(bytes.as_slice()) {
            Offered::Took(taken) => kept.note_taken(ctx, taken as u32),
            Offered::Failed => kept.note_failure(ctx),
        }
    }

    fn ready_async(
        &mut self,
        _alloc: Global,
        _ctx: &mut DriverCtx,
        _number: u64,
        _output: &Piece,
    ) -> Result<(), NoMemory> {
        Ok(())
    }

    fn process_exit(
        &mut self,
        _alloc: Global,
        _ctx: &mut DriverCtx,
        _process: u32,
    ) -> Result<(), NoMemory> {
        Ok(())
    }

    fn flush(&mut self, _alloc: Global, _ctx: &mut DriverCtx) -> Result<(), NoMemory> {
        Ok(())
    }

    fn stop_select(&mut self, _event: u32) {}

    fn stop(&mut self) {
        if let Some(program) = &mut self.program {
            program.child.stop();
        }
        self.life = Life::Stopped;
    }
}
