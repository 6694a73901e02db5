ghost use Rattle.std.specs.Prelude.{◌≡◌, ◌<◌, None, length, IfOk};
ghost use Rattle.driver_model.specs.Calls.{Valve as ValveKind, Nothing};
ghost use Rattle.port_driver.specs.Driven.{KeepsRoom};
ghost use Rattle.sample_drivers.specs.Valves.{Sets};

use crate::joined::joined;
use port_driver::{Config, Driver, DriverCtx, Life, ReplyTo, StartRefusal};
use port_model::{Flag, IoVec, NoMemory, Piece, Reason};
use std::alloc::Global;
use std::marker::Model;

/// A driver that sends the data of each command back to the owner. Control 1 sets its port busy, control 2 clears that. A soft one has
/// forced commands reach it while its port is busy.
#[derive(Drop)]
pub struct Valve {
    is_soft: bool,
    life: Life,
}

impl Model for Valve {
    ghost use Rattle.sample_drivers.specs.Valves.{ValveView};

    ghost Value = { ValveView };

    ghost view = { λ v. record { is_soft = v.is_soft; life = v.life } };
}

impl Valve {
    ghost use Rattle.std.specs.Prelude.{true, false};

    /// A fresh driver of the kind `valve`.
    pub fn new() -> Valve
        ensures { result ≡ record { is_soft = false; life = Life.Fresh } }
    {
        Valve {
            is_soft: false,
            life: Life::Fresh,
        }
    }

    /// A fresh driver of the kind `valve_soft`.
    pub fn soft() -> Valve
        ensures { result ≡ record { is_soft = true; life = Life.Fresh } }
    {
        Valve {
            is_soft: true,
            life: Life::Fresh,
        }
    }
}

/// Sets busy with operation 1, and clears it with operation 2.
fn answer(ctx: &mut DriverCtx, op: u32, bytes: &Piece) -> Result<ReplyTo, NoMemory>
    requires { length ctx.old.effects < 1048576 }
    ensures sets { IfOk result (Sets op bytes.now ctx.old ctx.new) }
    ensures room { KeepsRoom ctx.old ctx.new }
{
    match op {
        1 => {
            ctx.set_busy(true)?;
            Ok(ReplyTo::Bytes(Piece::empty()))
        }
        2 => {
            ctx.set_busy(false)?;
            Ok(ReplyTo::Bytes(Piece::empty()))
        }
        _ => Ok(ReplyTo::Badarg),
    }
}

#[tactic(auto, using(crate::proofs::Nothing::valve_kept))]
impl Driver for Valve {
    ghost kind = { λ v. ValveKind v.is_soft };

    ghost own = { λ _. Nothing };

    ghost stage = { λ v. v.life };

    ghost faults = { λ _. 0 };

    ghost program = { λ _. None };

    fn name(&self) -> Reason {
        let name = if self.is_soft {
            Reason::of_bytes(b"valve_soft")
        } else {
            Reason::of_bytes(b"valve")
        };
        match name {
            Ok(name) => name,
            Err(_) => unreachable!(),
        }
    }

    fn soft_busy(&self) -> bool {
        self.is_soft
    }

    fn events(&self) -> (u32, u32) {
        (0, 0)
    }

    fn life(&self) -> Life {
        self.life
    }

    fn start(
        &mut self,
        _alloc: Global,
        _ctx: &mut DriverCtx,
        _config: &Config,
    ) -> Result<(), StartRefusal> {
        self.life = Life::Started;
        Ok(())
    }

    fn outputv(
        &mut self,
        _alloc: Global,
        ctx: &mut DriverCtx,
        payload: &IoVec,
    ) -> Result<(), NoMemory> {
        let data = joined(payload)?;
        ctx.send(Flag::Plain, &data)
    }

    fn control(
        &mut self,
        _alloc: Global,
        ctx: &mut DriverCtx,
        op: u32,
        bytes: &Piece,
    ) -> Result<ReplyTo, NoMemory> {
        answer(ctx, op, bytes)
    }

    fn call(
        &mut self,
        _alloc: Global,
        _ctx: &mut DriverCtx,
        _op: u32,
        _bytes: &Piece,
    ) -> Result<ReplyTo, NoMemory> {
        Ok(ReplyTo::Badarg)
    }

    fn ready_input(
        &mut self,
        _alloc: Global,
        _ctx: &mut DriverCtx,
        _event: u32,
    ) -> Result<(), NoMemory> {
        Ok(())
    }

    fn ready_output(
        &mut self,
        _alloc: Global,
        _ctx: &mut DriverCtx,
        _event: u32,
    ) -> Result<(), NoMemory> {
        Ok(())
    }

    fn ready_async(
        &mut self,
        _alloc: Global,
        _ctx: &mut DriverCtx,
        _number: u64,
        _output: &Piece,
    ) -> Result<(), NoMemory> {
        Ok(())
    }

    fn process_exit(
        &mut self,
        _alloc: Global,
        _ctx: &mut DriverCtx,
        _process: u32,
    ) -> Result<(), NoMemory> {
        Ok(())
    }

    fn flush(&mut self, _alloc: Global, _ctx: &mut DriverCtx) -> Result<(), NoMemory> {
        Ok(())
    }

    fn stop_select(&mut self, _event: u32) {}

    fn stop(&mut self) {
        self.life = Life::Stopped;
    }
}
