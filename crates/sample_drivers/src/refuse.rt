ghost use Rattle.std.specs.Prelude.{◌≡◌, None};
ghost use Rattle.driver_model.specs.Calls.{Nothing};
ghost use Rattle.sample_drivers.specs.Refusals.{kind_of};

use port_driver::{Config, Driver, DriverCtx, Life, ReplyTo, StartRefusal};
use port_model::{IoVec, NoMemory, Piece, Reason};
use std::alloc::Global;
use std::marker::Model;

/// How a driver refuses to start.
#[derive(Clone, Copy, Debug, PartialEq, Eq)]
pub enum Refused {
    General,
    Errno,
    Badarg,
}

/// A driver that never starts: `refuse1` with a general error, `refuse2` with one of the system, `refuse3` for its argument. So no callback
/// of a started driver is made to it; each of them answers that it can't serve.
#[derive(Drop)]
pub struct Refuse {
    refused: Refused,
    life: Life,
}

impl Model for Refuse {
    ghost use Rattle.sample_drivers.specs.Refusals.{Refuser};

    ghost Value = { Refuser };

    ghost view = { λ r. record { refused = r.refused; life = r.life } };
}

impl Refuse {
    /// A fresh driver that refuses so.
    pub fn new(refused: Refused) -> Refuse
        ensures { result ≡ record { refused = refused; life = Life.Fresh } }
    {
        Refuse {
            refused,
            life: Life::Fresh,
        }
    }
}

#[tactic(auto, using(crate::proofs::Refusals::refuse_ended))]
impl Driver for Refuse {
    ghost kind = { λ r. kind_of r.refused };

    ghost own = { λ _. Nothing };

    ghost stage = { λ r. r.life };

    ghost faults = { λ _. 0 };

    ghost program = { λ _. None };

    fn name(&self) -> Reason {
        let name = match self.refused {
            Refused::General => Reason::of_bytes(b"refuse1"),
            Refused::Errno => Reason::of_bytes(b"refuse2"),
            Refused::Badarg => Reason::of_bytes(b"refuse3"),
        };
        match name {
            Ok(name) => name,
            Err(_) => unreachable!(),
        }
    }

    fn soft_busy(&self) -> bool {
        false
    }

    fn events(&self) -> (u32, u32) {
        (0, 0)
    }

    fn life(&self) -> Life {
        self.life
    }

    fn start(
        &mut self,
        _alloc: Global,
        _ctx: &mut DriverCtx,
        _config: &Config,
    ) -> Result<(), StartRefusal> {
        self.life = Life::Stopped;
        match self.refused {
            Refused::General => Err(StartRefusal::General),
            Refused::Errno => Err(StartRefusal::Errno),
            Refused::Badarg => Err(StartRefusal::Badarg),
        }
    }

    fn outputv(
        &mut self,
        _alloc: Global,
        _ctx: &mut DriverCtx,
        _payload: &IoVec,
    ) -> Result<(), NoMemory> {
        Err(NoMemory)
    }

    fn control(
        &mut self,
        _alloc: Global,
        _ctx: &mut DriverCtx,
        _op: u32,
        _bytes: &Piece,
    ) -> Result<ReplyTo, NoMemory> {
        Err(NoMemory)
    }

    fn call(
        &mut self,
        _alloc: Global,
        _ctx: &mut DriverCtx,
        _op: u32,
        _bytes: &Piece,
    ) -> Result<ReplyTo, NoMemory> {
        Err(NoMemory)
    }

    fn ready_input(
        &mut self,
        _alloc: Global,
        _ctx: &mut DriverCtx,
        _event: u32,
    ) -> Result<(), NoMemory> {
        Err(NoMemory)
    }

    fn ready_output(
        &mut self,
        _alloc: Global,
        _ctx: &mut DriverCtx,
        _event: u32,
    ) -> Result<(), NoMemory> {
        Err(NoMemory)
    }

    fn ready_async(
        &mut self,
        _alloc: Global,
        _ctx: &mut DriverCtx,
        _number: u64,
        _output: &Piece,
    ) -> Result<(), NoMemory> {
        Err(NoMemory)
    }

    fn process_exit(
        &mut self,
        _alloc: Global,
        _ctx: &mut DriverCtx,
        _process: u32,
    ) -> Result<(), NoMemory> {
        Err(NoMemory)
    }

    fn flush(&mut self, _alloc: Global, _ctx: &mut DriverCtx) -> Result<(), NoMemory> {
        Err(NoMemory)
    }

    fn stop_select(&mut self, _event: u32) {}

    fn stop(&mut self) {
        self.life = Life::Stopped;
    }
}
