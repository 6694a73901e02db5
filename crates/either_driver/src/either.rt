ghost use Rattle.either_driver.specs.Either.{of_either};

use port_driver::{Config, Driver, DriverCtx, Life, ReplyTo, StartRefusal};
use port_model::{IoVec, NoMemory, Piece, Reason};
use std::alloc::Global;

/// A driver of one of two types.
#[derive(Drop)]
pub enum EitherDriver<A, B> {
    First(A),
    Second(B),
}

impl<A: Driver, B: Driver> Driver for EitherDriver<A, B> {
    ghost kind = { λ e. of_either A.kind B.kind e };

    ghost own = { λ e. of_either A.own B.own e };

    ghost stage = { λ e. of_either A.stage B.stage e };

    ghost faults = { λ e. of_either A.faults B.faults e };

    ghost program = { λ e. of_either A.program B.program e };

    fn name(&self) -> Reason {
        match self {
            EitherDriver::First(driver) => driver.name(),
            EitherDriver::Second(driver) => driver.name(),
        }
    }

    fn soft_busy(&self) -> bool {
        match self {
            EitherDriver::First(driver) => driver.soft_busy(),
            EitherDriver::Second(driver) => driver.soft_busy(),
        }
    }

    fn events(&self) -> (u32, u32) {
        match self {
            EitherDriver::First(driver) => driver.events(),
            EitherDriver::Second(driver) => driver.events(),
        }
    }

    fn life(&self) -> Life {
        match self {
            EitherDriver::First(driver) => driver.life(),
            EitherDriver::Second(driver) => driver.life(),
        }
    }

    fn start(
        &mut self,
        alloc: Global,
        ctx: &mut DriverCtx,
        config: &Config,
    ) -> Result<(), StartRefusal> {
        match self {
            EitherDriver::First(driver) => driver.start(alloc, ctx, config),
            EitherDriver::Second(driver) => driver.start(alloc, ctx, config),
        }
    }

    fn outputv(
        &mut self,
        alloc: Global,
        ctx: &mut DriverCtx,
        payload: &IoVec,
    ) -> Result<(), NoMemory> {
        match self {
            EitherDriver::First(driver) => driver.outputv(alloc, ctx, payload),
            EitherDriver::Second(driver) => driver.outputv(alloc, ctx, payload),
        }
    }

    fn control(
        &mut self,
        alloc: Global,
        ctx: &mut DriverCtx,
        op: u32,
        bytes: &Piece,
    ) -> Result<ReplyTo, NoMemory> {
        match self {
            EitherDriver::First(driver) => driver.control(alloc, ctx, op, bytes),
            EitherDriver::Second(driver) => driver.control(alloc, ctx, op, bytes),
        }
    }

    fn call(
        &mut self,
        alloc: Global,
        ctx: &mut DriverCtx,
        op: u32,
        bytes: &Piece,
    ) -> Result<ReplyTo, NoMemory> {
        match self {
            EitherDriver::First(driver) => driver.call(alloc, ctx, op, bytes),
            EitherDriver::Second(driver) => driver.call(alloc, ctx, op, bytes),
        }
    }

    fn ready_input(
        &mut self,
        alloc: Global,
        ctx: &mut DriverCtx,
        event: u32,
    ) -> Result<(), NoMemory> {
        match self {
            EitherDriver::First(driver) => driver.ready_input(alloc, ctx, event),
            EitherDriver::Second(driver) => driver.ready_input(alloc, ctx, event),
        }
    }

    fn ready_output(
        &mut self,
        alloc: Global,
        ctx: &mut DriverCtx,
        event: u32,
    ) -> Result<(), NoMemory> {
        match self {
            EitherDriver::First(driver) => driver.ready_output(alloc, ctx, event),
            EitherDriver::Second(driver) => driver.ready_output(alloc, ctx, event),
        }
    }

    fn ready_async(
        &mut self,
        alloc: Global,
        ctx: &mut DriverCtx,
        number: u64,
        output: &Piece,
    ) -> Result<(), NoMemory> {
        match self {
            EitherDriver::First(driver) => driver.ready_async(alloc, ctx, number, output),
            EitherDriver::Second(driver) => driver.ready_async(alloc, ctx, number, output),
        }
    }

    fn process_exit(
        &mut self,
        alloc: Global,
        ctx: &mut DriverCtx,
        process: u32,
    ) -> Result<(), NoMemory> {
        match self {
            EitherDriver::First(driver) => driver.process_exit(alloc, ctx, process),
            EitherDriver::Second(driver) => driver.process_exit(alloc, ctx, process),
        }
    }

    fn flush(&mut self, alloc: Global, ctx: &mut DriverCtx) -> Result<(), NoMemory> {
        match self {
            EitherDriver::First(driver) => driver.flush(alloc, ctx),
            EitherDriver::Second(driver) => driver.flush(alloc, ctx),
        }
    }

    fn stop_select(&mut self, event: u32) {
        match self {
            EitherDriver::First(driver) => driver.stop_select(event),
            EitherDriver::Second(driver) => driver.stop_select(event),
        }
    }

    fn stop(&mut self) {
        match self {
            EitherDriver::First(driver) => driver.stop(),
            EitherDriver::Second(driver) => driver.stop(),
        }
    }
}
