ghost use Rattle.std.specs.Prelude.{◌≡◌, ◌<◌, ◌≤◌, [], take, length, Option, Some, None, IfOk, IfSome, IfNone, false};
ghost use Rattle.driver_model.specs.Calls.{Store as StoreKind, Nothing};
ghost use Rattle.driver_model.specs.Store.{number};
ghost use Rattle.port_driver.specs.Driven.{KeepsRoom};
ghost use Rattle.sample_drivers.specs.Stores.{Answers};

use driver_queue::EnqFault;
use port_driver::{Config, Driver, DriverCtx, Life, ReplyTo, StartRefusal};
use port_model::{Flag, IoVec, NoMemory, Piece, Reason};
use std::alloc::Global;
use std::marker::Model;

/// A driver that puts the data of each command into its queue, and sends all of it when its port closes. Numbers have the most
/// significant byte first.
///
/// - Control 1 with 4 bytes drops so many of the first bytes and answers them.
/// - Control 2 answers how many bytes are queued, in 8 bytes; control 3 all of them.
/// - Control 4 puts its bytes in front.
/// - Control 5 puts its bytes behind, but for the first 4 and for so many after these as they tell.
#[derive(Drop)]
pub struct Store {
    life: Life,
}

impl Model for Store {
    ghost use Rattle.port_driver.specs.declared.life.Life.{Life};

    ghost Value = { Life };

    ghost view = { λ s. s.life };
}

impl Store {
    /// A fresh driver.
    pub fn new() -> Store
        ensures { result ≡ Life.Fresh }
    {
        Store { life: Life::Fresh }
    }
}

/// The number in the first 4 bytes.
fn number(bytes: &Piece) -> Option<u32>
    ensures some { IfSome result (λ n. (n ≡ number bytes.now) × (4 ≤ length bytes.now)) }
    ensures none { IfNone result (length bytes.now < 4) }
{
    match bytes.as_slice() {
        [a, b, c, d, ..] => Some(u32::from_be_bytes([*a, *b, *c, *d])),
        _ => None,
    }
}

/// Takes so many of the first bytes as 4 bytes tell.
fn take(ctx: &mut DriverCtx, bytes: &Piece) -> Result<ReplyTo, NoMemory>
    ensures answers { IfOk result (Answers 1 bytes.now ctx.old ctx.new) }
    ensures room { KeepsRoom ctx.old ctx.new }
{
    let Some(count) = number(bytes) else {
        return Ok(ReplyTo::Badarg);
    };
    let count = u64::from(count);
    if bytes.len() != 4 || count > ctx.queue().sizeq() {
        return Ok(ReplyTo::Badarg);
    }
    let first = ctx.queue().first_bytes(count)?;
    match ctx.deq(count) {
        Ok(()) => Ok(ReplyTo::Bytes(first)),
        Err(_) => unreachable!(),
    }
}

/// Puts the bytes behind the first 4, but for so many as these tell, at the end.
fn put(ctx: &mut DriverCtx, bytes: &Piece) -> Result<ReplyTo, NoMemory>
    ensures answers { IfOk result (Answers 5 bytes.now ctx.old ctx.new) }
    ensures room { KeepsRoom ctx.old ctx.new }
{
    let Some(skip) = number(bytes) else {
        return Ok(ReplyTo::Badarg);
    };
    if u64::from(skip) > bytes.len() as u64 - 4 {
        return Ok(ReplyTo::Badarg);
    }
    let mut rest = bytes.share()?;
    rest.advance(4);
    rest.advance(skip as usize);
    ctx.enq(rest)?;
    Ok(ReplyTo::Bytes(Piece::empty()))
}

/// Answers a control.
fn control(alloc: Global, ctx: &mut DriverCtx, op: u32, bytes: &Piece) -> Result<ReplyTo, NoMemory>
    ensures answers { IfOk result (Answers op bytes.now ctx.old ctx.new) }
    ensures room { KeepsRoom ctx.old ctx.new }
{
    match op {
        1 => take(ctx, bytes),
        2 => {
            let size = ctx.queue().sizeq().to_be_bytes();
            Ok(ReplyTo::Bytes(Piece::of_slice(alloc, &size)?))
        }
        3 => Ok(ReplyTo::Bytes(ctx.join_queue()?)),
        4 => {
            ctx.pushq(bytes.share()?)?;
            Ok(ReplyTo::Bytes(Piece::empty()))
        }
        5 => put(ctx, bytes),
        _ => Ok(ReplyTo::Badarg),
    }
}

#[tactic(auto, using(crate::proofs::Queued::store_kept))]
impl Driver for Store {
    ghost kind = { λ _. StoreKind };

    ghost own = { λ _. Nothing };

    ghost stage = { λ s. s };

    ghost faults = { λ _. 0 };

    ghost program = { λ _. None };

    fn name(&self) -> Reason {
        match Reason::of_bytes(b"store") {
            Ok(name) => name,
            Err(_) => unreachable!(),
        }
    }

    fn soft_busy(&self) -> bool {
        false
    }

    fn events(&self) -> (u32, u32) {
        (0, 0)
    }

    fn life(&self) -> Life {
        self.life
    }

    fn start(
        &mut self,
        _alloc: Global,
        _ctx: &mut DriverCtx,
        _config: &Config,
    ) -> Result<(), StartRefusal> {
        self.life = Life::Started;
        Ok(())
    }

    fn outputv(
        &mut self,
        _alloc: Global,
        ctx: &mut DriverCtx,
        payload: &IoVec,
    ) -> Result<(), NoMemory> {
        match ctx.enqv(payload, 0) {
            Ok(()) => Ok(()),
            Err(EnqFault::NoMemory) => Err(NoMemory),
            Err(EnqFault::SkipPast { .. }) => unreachable!(),
        }
    }

    fn control(
        &mut self,
        alloc: Global,
        ctx: &mut DriverCtx,
        op: u32,
        bytes: &Piece,
    ) -> Result<ReplyTo, NoMemory> {
        control(alloc, ctx, op, bytes)
    }

    fn call(
        &mut self,
        _alloc: Global,
        _ctx: &mut DriverCtx,
        _op: u32,
        _bytes: &Piece,
    ) -> Result<ReplyTo, NoMemory> {
        Ok(ReplyTo::Badarg)
    }

    fn ready_input(
        &mut self,
        _alloc: Global,
        _ctx: &mut DriverCtx,
        _event: u32,
    ) -> Result<(), NoMemory> {
        Ok(())
    }

    fn ready_output(
        &mut self,
        _alloc: Global,
        _ctx: &mut DriverCtx,
        _event: u32,
    ) -> Result<(), NoMemory> {
        Ok(())
    }

    fn ready_async(
        &mut self,
        _alloc: Global,
        _ctx: &mut DriverCtx,
        _number: u64,
        _output: &Piece,
    ) -> Result<(), NoMemory> {
        Ok(())
    }

    fn process_exit(
        &mut self,
        _alloc: Global,
        _ctx: &mut DriverCtx,
        _process: u32,
    ) -> Result<(), NoMemory> {
        Ok(())
    }

    fn flush(&mut self, _alloc: Global, ctx: &mut DriverCtx) -> Result<(), NoMemory> {
        let all = ctx.join_queue()?;
        ctx.send(Flag::Plain, &all)?;
        ctx.clear_queue();
        Ok(())
    }

    fn stop_select(&mut self, _event: u32) {}

    fn stop(&mut self) {
        self.life = Life::Stopped;
    }
}
