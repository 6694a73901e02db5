ghost use Rattle.std.specs.Prelude.{◌≡◌, ◌+◌, ◌<◌, None, length, IfOk, OnOk, if◌then◌else◌};
ghost use Rattle.driver_model.specs.Calls.{Digest as DigestKind, Submitted};
ghost use Rattle.driver_model.specs.Digest.{is_job};
ghost use Rattle.port_driver.specs.Driven.{KeepsRoom};
ghost use Rattle.sample_drivers.specs.Digests.{Commands};

use crate::joined::joined;
use port_driver::{Config, Driver, DriverCtx, Life, ReplyTo, StartRefusal};
use port_model::{Flag, IoVec, NoMemory, Piece, Reason};
use std::alloc::Global;
use std::marker::Model;

/// A driver that makes a job of each command: the first byte is the key, the second the code of the work, 1 to 3, and the rest the input. The output
/// of a job is sent to the owner. A command that makes no job fails the port with `einval`.
#[derive(Drop)]
pub struct Digest {
    life: Life,
    jobs: u64,
}

impl Model for Digest {
    ghost use Rattle.sample_drivers.specs.Digests.{DigestView};

    ghost Value = { DigestView };

    ghost view = { λ d. record { life = d.life; jobs = d.jobs } };
}

impl Digest {
    /// A fresh driver.
    pub fn new() -> Digest
        ensures { result ≡ record { life = Life.Fresh; jobs = 0 } }
    {
        Digest {
            life: Life::Fresh,
            jobs: 0,
        }
    }
}

/// Submits the job of a command's data, or fails the port. Answers how many jobs there are then, after so many before.
fn submit(ctx: &mut DriverCtx, bytes: &Piece, jobs: u64) -> Result<u64, NoMemory>
    requires { length ctx.old.effects < 1048576 }
    ensures did { OnOk result (Commands bytes.now ctx.old ctx.new) }
    ensures jobs { IfOk result (λ count. count ≡ (if is_job bytes.now then jobs + 1 else jobs)) }
    ensures room { KeepsRoom ctx.old ctx.new }
{
    if let [key, code, ..] = bytes.as_slice() {
        if 1 <= *code && *code <= 3 {
            let (key, code) = (u32::from(*key), *code);
            let Some(count) = jobs.checked_add(1) else {
                return Err(NoMemory);
            };
            let mut input = bytes.share()?;
            input.advance(2);
            ctx.submit(key, code, &input)?;
            return Ok(count);
        }
    }
    match Reason::of_bytes(b"einval") {
        Ok(reason) => ctx.fail(reason)?,
        Err(_) => unreachable!(),
    }
    Ok(jobs)
}

#[tactic(auto, using(crate::proofs::Jobs::digest_kept))]
impl Driver for Digest {
    ghost kind = { λ _. DigestKind };

    ghost own = { λ d. Submitted d.jobs };

    ghost stage = { λ d. d.life };

    ghost faults = { λ _. 0 };

    ghost program = { λ _. None };

    fn name(&self) -> Reason {
        match Reason::of_bytes(b"digest") {
            Ok(name) => name,
            Err(_) => unreachable!(),
        }
    }

    fn soft_busy(&self) -> bool {
        false
    }

    fn events(&self) -> (u32, u32) {
        (0, 0)
    }

    fn life(&self) -> Life {
        self.life
    }

    fn start(
        &mut self,
        _alloc: Global,
        _ctx: &mut DriverCtx,
        _config: &Config,
    ) -> Result<(), StartRefusal> {
        self.life = Life::Started;
        self.jobs = 0;
        Ok(())
    }

    fn outputv(
        &mut self,
        _alloc: Global,
        ctx: &mut DriverCtx,
        payload: &IoVec,
    ) -> Result<(), NoMemory> {
        let data = joined(payload)?;
        self.jobs = submit(ctx, &data, self.jobs)?;
        Ok(())
    }

    fn control(
        &mut self,
        _alloc: Global,
        _ctx: &mut DriverCtx,
        _op: u32,
        _bytes: &Piece,
    ) -> Result<ReplyTo, NoMemory> {
        Ok(ReplyTo::Badarg)
    }

    fn call(
        &mut self,
        _alloc: Global,
        _ctx: &mut DriverCtx,
        _op: u32,
        _bytes: &Piece,
    ) -> Result<ReplyTo, NoMemory> {
        Ok(ReplyTo::Badarg)
    }

    fn ready_input(
        &mut self,
        _alloc: Global,
        _ctx: &mut DriverCtx,
        _event: u32,
    ) -> Result<(), NoMemory> {
        Ok(())
    }

    fn ready_output(
        &mut self,
        _alloc: Global,
        _ctx: &mut DriverCtx,
        _event: u32,
    ) -> Result<(), NoMemory> {
        Ok(())
    }

    fn ready_async(
        &mut self,
        _alloc: Global,
        ctx: &mut DriverCtx,
        _number: u64,
        output: &Piece,
    ) -> Result<(), NoMemory> {
        ctx.send(Flag::Plain, output)
    }

    fn process_exit(
        &mut self,
        _alloc: Global,
        _ctx: &mut DriverCtx,
        _process: u32,
    ) -> Result<(), NoMemory> {
        Ok(())
    }

    fn flush(&mut self, _alloc: Global, _ctx: &mut DriverCtx) -> Result<(), NoMemory> {
        Ok(())
    }

    fn stop_select(&mut self, _event: u32) {}

    fn stop(&mut self) {
        self.life = Life::Stopped;
    }
}
