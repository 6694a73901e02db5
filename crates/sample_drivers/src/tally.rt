ghost use Rattle.std.specs.Prelude.{◌≡◌, ◌==◌, ◌+◌, ◌^◌, ◌<◌, ◌++◌, [], None, length, IfOk};
ghost use Rattle.std.specs.Int.{w64, to_be_bytes};
ghost use Rattle.port_model.specs.declared.effect.Effect.TheVariants.{Watch, Reply};
ghost use Rattle.driver_model.specs.Calls.{Tally as TallyKind, Counted};
ghost use Rattle.driver_model.specs.Tally.{tally_term};
ghost use Rattle.port_driver.specs.Context.{did};
ghost use Rattle.port_driver.specs.Driven.{KeepsRoom};
ghost use Rattle.port_driver.specs.Replies.{reply_effect};

use port_driver::{Config, Driver, DriverCtx, Life, ReplyTo, StartRefusal};
use port_model::{Flag, IoVec, NoMemory, Piece, Reason};
use port_terms::{AtomFault, Term, atom, encode, terms};
use std::alloc::Global;
use std::marker::Model;

/// The greatest integer of a term.
const MAX_COUNT: u64 = 0x7fff_ffff_ffff_ffff;

/// A driver that counts commands and their bytes. Control 1 answers both numbers in 8 bytes each, the most significant first; call 1
/// answers the term `{tally, Commands, Bytes}`. Control 2 has it watch the caller: when a process that it watches ends, it sends the
/// number of that process to the owner, in one byte.
#[derive(Drop)]
pub struct Tally {
    life: Life,
    commands: u64,
    bytes: u64,
}

impl Model for Tally {
    ghost use Rattle.sample_drivers.specs.Tallies.{Tallied, IsTallied};

    ghost Value = { Tallied };

    ghost view = { λ t. record { life = t.life; commands = t.commands; bytes = t.bytes } };

    ghost invariant = { λ t. IsTallied t.commands t.bytes };
}

impl Tally {
    /// A fresh driver.
    pub fn new() -> Tally
        ensures { result ≡ record { life = Life.Fresh; commands = 0; bytes = 0 } }
    {
        Tally {
            life: Life::Fresh,
            commands: 0,
            bytes: 0,
        }
    }
}

/// The sum of two numbers, where an integer of a term can hold it.
fn sum(number: u64, more: u64) -> Result<u64, NoMemory>
    ensures value { IfOk result (λ sum. sum ≡ number + more) }
    ensures bound { IfOk result (λ sum. sum < 2 ^ 63) }
{
    match number.checked_add(more) {
        Some(sum) if sum <= MAX_COUNT => Ok(sum),
        _ => Err(NoMemory),
    }
}

/// Two numbers in 8 bytes each.
fn both(alloc: Global, commands: u64, bytes: u64) -> Result<Piece, NoMemory>
    ensures { IfOk result (λ piece. piece ≡ to_be_bytes w64 commands ++ to_be_bytes w64 bytes) }
{
    let mut told = Vec::with_capacity(alloc, 16)?;
    told.extend_from_slice(&commands.to_be_bytes())?;
    told.extend_from_slice(&bytes.to_be_bytes())?;
    Piece::of_vec(told)
}

/// The external form of `{tally, Commands, Bytes}`.
fn term(alloc: Global, commands: u64, bytes: u64) -> Result<Piece, NoMemory>
    requires commands { commands < 2 ^ 63 }
    requires bytes { bytes < 2 ^ 63 }
    ensures { IfOk result (λ piece. piece ≡ tally_term commands bytes) }
{
    let name = match atom(alloc, "tally") {
        Ok(name) => name,
        Err(AtomFault::TooLong { .. }) => unreachable!(),
        Err(AtomFault::NoMemory) => return Err(NoMemory),
    };
    let mut parts = Vec::with_capacity(alloc, 3)?;
    parts.push(Term::Atom(name))?;
    parts.push(Term::Int(commands as i64))?;
    parts.push(Term::Int(bytes as i64))?;
    let Ok(form) = encode(alloc, &Term::Tuple(terms(parts))) else {
        return Err(NoMemory);
    };
    Piece::of_vec(form)
}

/// Watches the process that called.
fn watch_caller(ctx: &mut DriverCtx) -> Result<ReplyTo, NoMemory>
    requires { length ctx.old.effects < 1048576 }
    ensures watched { IfOk result (λ answer. ctx.new ≡ did ctx.old (Watch ctx.old.caller)) }
    ensures answer { IfOk result (λ answer. reply_effect answer ≡ Reply []) }
    ensures room { KeepsRoom ctx.old ctx.new }
{
    ctx.watch(ctx.caller())?;
    Ok(ReplyTo::Bytes(Piece::empty()))
}

#[tactic(auto, using(crate::proofs::Tallies::tally_kept))]
impl Driver for Tally {
    ghost kind = { λ _. TallyKind };

    ghost own = { λ t. Counted t.commands t.bytes };

    ghost stage = { λ t. t.life };

    ghost faults = { λ _. 0 };

    ghost program = { λ _. None };

    fn name(&self) -> Reason {
        match Reason::of_bytes(b"tally") {
            Ok(name) => name,
            Err(_) => unreachable!(),
        }
    }

    fn soft_busy(&self) -> bool {
        false
    }

    fn events(&self) -> (u32, u32) {
        (0, 0)
    }

    fn life(&self) -> Life {
        self.life
    }

    fn start(
        &mut self,
        _alloc: Global,
        _ctx: &mut DriverCtx,
        _config: &Config,
    ) -> Result<(), StartRefusal> {
        self.life = Life::Started;
        self.commands = 0;
        self.bytes = 0;
        Ok(())
    }

    fn outputv(
        &mut self,
        _alloc: Global,
        _ctx: &mut DriverCtx,
        payload: &IoVec,
    ) -> Result<(), NoMemory> {
        let commands = sum(self.commands, 1)?;
        self.bytes = sum(self.bytes, payload.size())?;
        self.commands = commands;
        Ok(())
    }

    fn control(
        &mut self,
        alloc: Global,
        ctx: &mut DriverCtx,
        op: u32,
        _bytes: &Piece,
    ) -> Result<ReplyTo, NoMemory> {
        if op == 1 {
            return Ok(ReplyTo::Bytes(both(alloc, self.commands, self.bytes)?));
        }
        if op == 2 {
            let answer = watch_caller(ctx)?;
            return Ok(answer);
        }
        Ok(ReplyTo::Badarg)
    }

    fn call(
        &mut self,
        alloc: Global,
        _ctx: &mut DriverCtx,
        op: u32,
        _bytes: &Piece,
    ) -> Result<ReplyTo, NoMemory> {
        if op == 1 {
            return Ok(ReplyTo::Bytes(term(alloc, self.commands, self.bytes)?));
        }
        Ok(ReplyTo::Badarg)
    }

    fn ready_input(
        &mut self,
        _alloc: Global,
        _ctx: &mut DriverCtx,
        _event: u32,
    ) -> Result<(), NoMemory> {
        Ok(())
    }

    fn ready_output(
        &mut self,
        _alloc: Global,
        _ctx: &mut DriverCtx,
        _event: u32,
    ) -> Result<(), NoMemory> {
        Ok(())
    }

    fn ready_async(
        &mut self,
        _alloc: Global,
        _ctx: &mut DriverCtx,
        _number: u64,
        _output: &Piece,
    ) -> Result<(), NoMemory> {
        Ok(())
    }

    fn process_exit(
        &mut self,
        alloc: Global,
        ctx: &mut DriverCtx,
        process: u32,
    ) -> Result<(), NoMemory> {
        let told = Piece::of_slice(alloc, &[(process % 256) as u8])?;
        ctx.send(Flag::Plain, &told)
    }

    fn flush(&mut self, _alloc: Global, _ctx: &mut DriverCtx) -> Result<(), NoMemory> {
        Ok(())
    }

    fn stop_select(&mut self, _event: u32) {}

    fn stop(&mut self) {
        self.life = Life::Stopped;
    }
}
