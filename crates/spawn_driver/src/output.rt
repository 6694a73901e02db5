//! What is written to a program.
ghost use Rattle.std.specs.Prelude.{◌≡◌, ◌≤◌, ◌<◌, ◌++◌, ◌&&◌, ◌||◌, ◌∷◌, [], nat_le, length, take, min, if◌then◌else◌, IfOk, OnOk};
ghost use Rattle.std.specs.List.{concat};
ghost use Rattle.port_signal.specs.declared.outside.Outside.TheVariants.{Took};
ghost use Rattle.port_model.specs.declared.effect.Effect.TheVariants.{Select};
ghost use Rattle.spawn_driver.specs.Recorded.{Adds, with_effects, with_answers, write_selected, write_deselected, busy_set, busy_cleared};
ghost use Rattle.spawn_driver.specs.Steps.{Queues, QueuesFrame, Takes};

use crate::failures::fail;
use crate::kept::Kept;
use driver_queue::EnqFault;
use packet_framing::{FrameFault, frame};
use port_driver::DriverCtx;
use port_model::{Dir, IoVec, NoMemory, Outside, Piece};
use std::alloc::Global;

/// The most bytes of one offer.
pub(crate) const MOST_OFFERED: u64 = 65_536;

/// Selects or deselects an event. A driver of a program holds two events, so that it is never refused for their number.
pub(crate) fn select(ctx: &mut DriverCtx, event: u32, dir: Dir, on: bool) -> Result<(), NoMemory>
    requires { length ctx.old.effects < 1048576 }
    ensures ok { OnOk result (ctx.new ≡ with_effects ctx.old (Select event dir on ∷ [])) }
    ensures adds { Adds 1 ctx.old ctx.new }
{
    match ctx.select(event, dir, on) {
        Ok(()) => Ok(()),
        Err(_) => Err(NoMemory),
    }
}

/// Puts a frame behind the bytes of the queue, unless a call of the program has failed.
fn enqueue(ctx: &mut DriverCtx, frame: &IoVec, failed: bool) -> Result<(), NoMemory>
    ensures ok { OnOk result (ctx.new ≡ record ctx.old { queue = if failed then ctx.old.queue else ctx.old.queue ++ concat frame.now }) }
    ensures adds { Adds 0 ctx.old ctx.new }
{
    if failed {
        return Ok(());
    }
    match ctx.enqv(frame, 0) {
        Ok(()) => Ok(()),
        Err(EnqFault::NoMemory) => Err(NoMemory),
        Err(EnqFault::SkipPast { .. }) => unreachable!(),
    }
}

/// Selects the write event where bytes came into an empty queue.
fn select_write(ctx: &mut DriverCtx, event: u32, was_empty: bool) -> Result<(), NoMemory>
    requires { length ctx.old.effects < 1048576 }
    ensures ok { OnOk result (ctx.new ≡ with_effects ctx.old (write_selected event was_empty ctx.old.queue)) }
    ensures adds { Adds 1 ctx.old ctx.new }
{
    if was_empty && !ctx.is_drained() {
        return select(ctx, event, Dir::Write, true);
    }
    Ok(())
}

/// Deselects the write event where nothing is queued.
fn deselect_write(ctx: &mut DriverCtx, event: u32) -> Result<(), NoMemory>
    requires { length ctx.old.effects < 1048576 }
    ensures ok { OnOk result (ctx.new ≡ with_effects ctx.old (write_deselected event ctx.old.queue)) }
    ensures adds { Adds 1 ctx.old ctx.new }
{
    if ctx.is_drained() {
        return select(ctx, event, Dir::Write, false);
    }
    Ok(())
}

/// Sets the port busy where so many bytes are queued and it isn't. Answers whether it is then.
fn set_busy_from(ctx: &mut DriverCtx, high: u32, busy: bool) -> Result<bool, NoMemory>
    requires { length ctx.old.effects < 1048576 }
    ensures ok { OnOk result (ctx.new ≡ with_effects ctx.old (busy_set high busy ctx.old.queue)) }
    ensures busy { IfOk result (λ now. now ≡ (busy || nat_le high (length ctx.old.queue))) }
    ensures adds { Adds 1 ctx.old ctx.new }
{
    if busy {
        return Ok(true);
    }
    if u64::from(high) <= ctx.queue().sizeq() {
        ctx.set_busy(true)?;
        return Ok(true);
    }
    Ok(false)
}

/// Frees the port where it is busy and fewer bytes are queued. Answers whether it is busy then.
fn clear_busy_below(ctx: &mut DriverCtx, low: u32, busy: bool) -> Result<bool, NoMemory>
    requires { length ctx.old.effects < 1048576 }
    ensures ok { OnOk result (ctx.new ≡ with_effects ctx.old (busy_cleared low busy ctx.old.queue)) }
    ensures busy { IfOk result (λ now. now ≡ (busy && nat_le low (length ctx.old.queue))) }
    ensures adds { Adds 1 ctx.old ctx.new }
{
    if !busy {
        return Ok(false);
    }
    if ctx.queue().sizeq() < u64::from(low) {
        ctx.set_busy(false)?;
        return Ok(false);
    }
    Ok(true)
}

/// The first bytes of the queue, as many as one offer has.
pub(crate) fn front(ctx: &DriverCtx) -> Result<Piece, NoMemory>
    ensures { IfOk result (λ piece. piece ≡ take (min (length ctx.now.queue) 65536) ctx.now.queue) }
{
    let count = ctx.queue().sizeq().min(MOST_OFFERED);
    ctx.queue().first_bytes(count)
}

impl Kept {
    /// Frames the data of a command, and queues the frame. Data that no frame can have fails the port `einval`.
    pub(crate) fn output(
        &mut self,
        alloc: Global,
        ctx: &mut DriverCtx,
        payload: &IoVec,
    ) -> Result<(), NoMemory>
        requires { length ctx.old.effects ≤ 524288 }
        ensures ok { OnOk result (Queues (concat payload.now) self.old self.new ctx.old ctx.new) }
        ensures adds { Adds 2 ctx.old ctx.new }
    {
        match frame(alloc, self.config.mode, payload) {
            Ok(framed) => self.queue_frame(ctx, &framed),
            Err(FrameFault::TooLong { .. }) => fail(ctx, b"einval"),
            Err(FrameFault::NoMemory) => Err(NoMemory),
        }
    }

    /// Queues a frame, and looks whether the program is to be offered bytes and whether the port is busy then.
    fn queue_frame(&mut self, ctx: &mut DriverCtx, framed: &IoVec) -> Result<(), NoMemory>
        requires { length ctx.old.effects ≤ 524288 }
        ensures ok { OnOk result (QueuesFrame (concat framed.now) self.old self.new ctx.old ctx.new) }
        ensures adds { Adds 2 ctx.old ctx.new }
    {
        let was_empty = ctx.is_drained();
        enqueue(ctx, framed, self.failed)?;
        select_write(ctx, self.write, was_empty)?;
        self.busy = set_busy_from(ctx, self.config.busy_high, self.busy)?;
        Ok(())
    }

    /// Records how many bytes the program took, and drops them.
    pub(crate) fn note_taken(&mut self, ctx: &mut DriverCtx, taken: u32) -> Result<(), NoMemory>
        requires within { taken ≤ length ctx.old.queue }
        requires outside { length ctx.old.outside ≤ 524288 }
        requires effects { length ctx.old.effects ≤ 524288 }
        ensures ok { OnOk result (Takes taken self.old self.new ctx.old ctx.new) }
        ensures adds { Adds 3 ctx.old ctx.new }
    {
        self.drop_taken(ctx, taken)?;
        ctx.answered(Outside::Took(taken))
    }

    /// Drops the bytes that the program took from the queue, and looks whether the port is free and whether more is to be offered.
    pub(crate) fn drop_taken(&mut self, ctx: &mut DriverCtx, taken: u32) -> Result<(), NoMemory>
        requires within { taken ≤ length ctx.old.queue }
        requires effects { length ctx.old.effects ≤ 524288 }
        ensures ok { OnOk result (Takes taken self.old self.new ctx.old (with_answers ctx.new (Took taken ∷ []))) }
        ensures adds { Adds 2 ctx.old ctx.new }
    {
        match ctx.deq(u64::from(taken)) {
            Ok(()) => {}
            Err(_) => unreachable!(),
        }
        self.busy = clear_busy_below(ctx, self.config.busy_low, self.busy)?;
        deselect_write(ctx, self.write)
    }
}
