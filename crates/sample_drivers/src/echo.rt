ghost use Rattle.std.specs.Prelude.{◌≡◌, ◌==◌, None, IfOk, if◌then◌else◌};
ghost use Rattle.port_model.specs.declared.effect.Effect.TheVariants.{Reply, ReplyBadarg};
ghost use Rattle.driver_model.specs.Calls.{Echo as EchoKind, Nothing};
ghost use Rattle.port_driver.specs.Replies.{reply_effect};

use crate::joined::joined;
use port_driver::{Config, Driver, DriverCtx, Life, ReplyTo, StartRefusal};
use port_model::{Flag, IoVec, NoMemory, Piece, Reason};
use std::alloc::Global;
use std::marker::Model;

/// A driver that sends the data of each command back to the owner, and answers operation 1 with its bytes.
#[derive(Drop)]
pub struct Echo {
    life: Life,
}

impl Model for Echo {
    ghost use Rattle.port_driver.specs.declared.life.Life.{Life};

    ghost Value = { Life };

    ghost view = { λ e. e.life };
}

impl Echo {
    /// A fresh driver.
    pub fn new() -> Echo
        ensures { result ≡ Life.Fresh }
    {
        Echo { life: Life::Fresh }
    }
}

/// Answers operation 1 with the bytes that it was asked with.
fn answer(op: u32, bytes: &Piece) -> Result<ReplyTo, NoMemory>
    ensures { IfOk result (λ answer. reply_effect answer ≡ (if op == 1 then Reply bytes.now else ReplyBadarg)) }
{
    if op == 1 {
        return Ok(ReplyTo::Bytes(bytes.share()?));
    }
    Ok(ReplyTo::Badarg)
}

#[tactic(auto, using(crate::proofs::Nothing::echo_kept))]
impl Driver for Echo {
    ghost kind = { λ _. EchoKind };

    ghost own = { λ _. Nothing };

    ghost stage = { λ e. e };

    ghost faults = { λ _. 0 };

    ghost program = { λ _. None };

    fn name(&self) -> Reason {
        match Reason::of_bytes(b"echo") {
            Ok(name) => name,
            Err(_) => unreachable!(),
        }
    }

    fn soft_busy(&self) -> bool {
        false
    }

    fn events(&self) -> (u32, u32) {
        (0, 0)
    }

    fn life(&self) -> Life {
        self.life
    }

    fn start(
        &mut self,
        _alloc: Global,
        _ctx: &mut DriverCtx,
        _config: &Config,
    ) -> Result<(), StartRefusal> {
        self.life = Life::Started;
        Ok(())
    }

    #[inline(always)]
    fn outputv(
        &mut self,
        _alloc: Global,
        ctx: &mut DriverCtx,
        payload: &IoVec,
    ) -> Result<(), NoMemory> {
        let data = joined(payload)?;
        ctx.send(Flag::Plain, &data)
    }

    fn control(
        &mut self,
        _alloc: Global,
        _ctx: &mut DriverCtx,
        op: u32,
        bytes: &Piece,
    ) -> Result<ReplyTo, NoMemory> {
        answer(op, bytes)
    }

    fn call(
        &mut self,
        _alloc: Global,
        _ctx: &mut DriverCtx,
        op: u32,
        bytes: &Piece,
    ) -> Result<ReplyTo, NoMemory> {
        answer(op, bytes)
    }

    fn ready_input(
        &mut self,
        _alloc: Global,
        _ctx: &mut DriverCtx,
        _event: u32,
    ) -> Result<(), NoMemory> {
        Ok(())
    }

    fn ready_output(
        &mut self,
        _alloc: Global,
        _ctx: &mut DriverCtx,
        _event: u32,
    ) -> Result<(), NoMemory> {
        Ok(())
    }

    fn ready_async(
        &mut self,
        _alloc: Global,
        _ctx: &mut DriverCtx,
        _number: u64,
        _output: &Piece,
    ) -> Result<(), NoMemory> {
        Ok(())
    }

    fn process_exit(
        &mut self,
        _alloc: Global,
        _ctx: &mut DriverCtx,
        _process: u32,
    ) -> Result<(), NoMemory> {
        Ok(())
    }

    fn flush(&mut self, _alloc: Global, _ctx: &mut DriverCtx) -> Result<(), NoMemory> {
        Ok(())
    }

    fn stop_select(&mut self, _event: u32) {}

    fn stop(&mut self) {
        self.life = Life::Stopped;
    }
}
