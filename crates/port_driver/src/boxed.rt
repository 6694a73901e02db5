//! A boxed driver is a driver: what a run is handed are boxes.

use crate::{Config, Driver, DriverCtx, Life, ReplyTo, StartRefusal};
use driver_model::{IoVec, NoMemory, Piece, Reason};
use std::alloc::Global;

impl Driver for Box<dyn Driver + Send> {
    ghost kind = { λ b. (Driver-box b).kind b.value };

    ghost own = { λ b. (Driver-box b).own b.value };

    ghost stage = { λ b. (Driver-box b).stage b.value };

    ghost faults = { λ b. (Driver-box b).faults b.value };

    ghost program = { λ b. (Driver-box b).program b.value };

    fn name(&self) -> Reason {
        (**self).name()
    }

    fn soft_busy(&self) -> bool {
        (**self).soft_busy()
    }

    fn events(&self) -> (u32, u32) {
        (**self).events()
    }

    fn life(&self) -> Life {
        (**self).life()
    }

    fn start(
        &mut self,
        alloc: Global,
        ctx: &mut DriverCtx,
        config: &Config,
    ) -> Result<(), StartRefusal> {
        (**self).start(alloc, ctx, config)
    }

    fn outputv(
        &mut self,
        alloc: Global,
        ctx: &mut DriverCtx,
        payload: &IoVec,
    ) -> Result<(), NoMemory> {
        (**self).outputv(alloc, ctx, payload)
    }

    fn control(
        &mut self,
        alloc: Global,
        ctx: &mut DriverCtx,
        op: u32,
        bytes: &Piece,
    ) -> Result<ReplyTo, NoMemory> {
        (**self).control(alloc, ctx, op, bytes)
    }

    fn call(
        &mut self,
        alloc: Global,
        ctx: &mut DriverCtx,
        op: u32,
        bytes: &Piece,
    ) -> Result<ReplyTo, NoMemory> {
        (**self).call(alloc, ctx, op, bytes)
    }

    fn ready_input(
        &mut self,
        alloc: Global,
        ctx: &mut DriverCtx,
        event: u32,
    ) -> Result<(), NoMemory> {
        (**self).ready_input(alloc, ctx, event)
    }

    fn ready_output(
        &mut self,
        alloc: Global,
        ctx: &mut DriverCtx,
        event: u32,
    ) -> Result<(), NoMemory> {
        (**self).ready_output(alloc, ctx, event)
    }

    fn ready_async(
        &mut self,
        alloc: Global,
        ctx: &mut DriverCtx,
        number: u64,
        output: &Piece,
    ) -> Result<(), NoMemory> {
        (**self).ready_async(alloc, ctx, number, output)
    }

    fn process_exit(
        &mut self,
        alloc: Global,
        ctx: &mut DriverCtx,
        process: u32,
    ) -> Result<(), NoMemory> {
        (**self).process_exit(alloc, ctx, process)
    }

    fn flush(&mut self, alloc: Global, ctx: &mut DriverCtx) -> Result<(), NoMemory> {
        (**self).flush(alloc, ctx)
    }

    fn stop_select(&mut self, event: u32) {
        (**self).stop_select(event);
    }

    fn stop(&mut self) {
        (**self).stop();
    }
}
