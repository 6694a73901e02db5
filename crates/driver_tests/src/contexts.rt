//! What a context records, in its order.
ghost use Rattle.std.specs.Prelude.{◌<◌, IsTrue, length};

use crate::checks::is_right;
use crate::port::context;
use crate::shown::{ShownEffect, are_shown};
use driver_queue::DriverQueue;
use port_driver::{DriverCtx, ReplyTo, SelectFault};
use port_model::{Dir, Flag, Outside, Piece, Reason};
use std::alloc::Global;

/// A call of a context.
#[derive(Clone, Copy)]
enum ContextCall {
    /// Sends a line's part.
    Send(&'static [u8]),
    SendEof,
    SendStatus(i32),
    SetBusy(bool),
    WatchCaller,
    FailNormally,
    Reply(&'static [u8]),
    ReplyBadarg,
    /// Selects an event for reading.
    SelectRead(u32),
    Unuse(u32),
}

/// A context in which nothing was done, and whose next job is job 4.
fn fresh(alloc: Global) -> Option<DriverCtx> {
    context(alloc, 4, DriverQueue::new(alloc))
}

/// Whether there is room for one more effect.
fn has_room(ctx: &DriverCtx) -> bool
    ensures { IsTrue result → length ctx.now.effects < 1048576 }
{
    ctx.effects().len() < 1048576
}

fn sends(alloc: Global, ctx: &mut DriverCtx, part: &[u8]) -> bool {
    match Piece::of_slice(alloc, part) {
        Ok(bytes) => has_room(ctx) && ctx.send(Flag::Noeol, &bytes).is_ok(),
        Err(_) => false,
    }
}

fn replies(alloc: Global, ctx: &mut DriverCtx, bytes: &[u8]) -> bool {
    match Piece::of_slice(alloc, bytes) {
        Ok(bytes) => has_room(ctx) && ctx.reply(ReplyTo::Bytes(bytes)).is_ok(),
        Err(_) => false,
    }
}

/// Why an event isn't selected, if it isn't.
fn select_fault(ctx: &mut DriverCtx, event: u32, dir: Dir) -> Option<SelectFault> {
    if !has_room(ctx) {
        return Some(SelectFault::NoMemory);
    }
    ctx.select(event, dir, true).err()
}

/// Whether a call succeeds.
fn makes(alloc: Global, ctx: &mut DriverCtx, call: ContextCall) -> bool {
    if !has_room(ctx) {
        return false;
    }
    match call {
        ContextCall::Send(part) => sends(alloc, ctx, part),
        ContextCall::SendEof => ctx.send_eof().is_ok(),
        ContextCall::SendStatus(status) => ctx.send_status(status).is_ok(),
        ContextCall::SetBusy(busy) => ctx.set_busy(busy).is_ok(),
        ContextCall::WatchCaller => ctx.watch(ctx.caller()).is_ok(),
        ContextCall::FailNormally => ctx.fail(Reason::normal()).is_ok(),
        ContextCall::Reply(bytes) => replies(alloc, ctx, bytes),
        ContextCall::ReplyBadarg => ctx.reply(ReplyTo::Badarg).is_ok(),
        ContextCall::SelectRead(event) => select_fault(ctx, event, Dir::Read).is_none(),
        ContextCall::Unuse(event) => ctx.unuse(event).is_ok(),
    }
}

/// Whether these calls of a fresh context succeed, and leave these effects.
fn leaves(alloc: Global, calls: &[ContextCall], wanted: &[ShownEffect]) -> bool {
    let Some(mut ctx) = fresh(alloc) else {
        return false;
    };
    for call in calls {
        if !makes(alloc, &mut ctx, *call) {
            return false;
        }
    }
    are_shown(ctx.effects(), wanted)
}

const TELLING: [ContextCall; 3] = [
    ContextCall::Send(b"ab"),
    ContextCall::SendEof,
    ContextCall::SendStatus(-3),
];

const TOLD: [ShownEffect; 3] = [
    ShownEffect::Part(b"ab"),
    ShownEffect::Eof,
    ShownEffect::Status(-3),
];

#[test]
fn what_is_told_to_the_owner_stands_in_order(rt: HostRuntime) {
    is_right(&rt, leaves(rt.alloc(), &TELLING, &TOLD));
}

const CONCERNING: [ContextCall; 3] = [
    ContextCall::SetBusy(true),
    ContextCall::WatchCaller,
    ContextCall::FailNormally,
];

const CONCERNED: [ShownEffect; 3] = [
    ShownEffect::Busy(true),
    ShownEffect::Watch(7),
    ShownEffect::FailsNormally,
];

#[test]
fn what_concerns_the_port_stands_in_order(rt: HostRuntime) {
    is_right(&rt, leaves(rt.alloc(), &CONCERNING, &CONCERNED));
}

const REPLYING: [ContextCall; 2] = [ContextCall::Reply(b"ab"), ContextCall::ReplyBadarg];

const REPLIED: [ShownEffect; 2] = [ShownEffect::Reply(b"ab"), ShownEffect::ReplyBadarg];

#[test]
fn answers_of_a_driver_stand_in_order(rt: HostRuntime) {
    is_right(&rt, leaves(rt.alloc(), &REPLYING, &REPLIED));
}

/// A context in which the outside took two bytes and then ended.
fn answered(alloc: Global) -> Option<DriverCtx> {
    let mut ctx = context(alloc, 4, DriverQueue::new(alloc))?;
    ctx.answered(Outside::Took(2)).ok()?;
    ctx.answered(Outside::End).ok()?;
    Some(ctx)
}

/// Whether the outside's answers are these, and nothing else was done.
fn ends_answered(ctx: DriverCtx) -> bool {
    let (_, outside, effects) = ctx.finish();
    matches!(outside.as_slice(), [Outside::Took(2), Outside::End]) && effects.as_slice().is_empty()
}

/// Whether two answers of the outside stand in order.
fn answers(alloc: Global) -> bool {
    match answered(alloc) {
        Some(ctx) => ends_answered(ctx),
        None => false,
    }
}

#[test]
fn answers_of_the_outside_stand_in_order(rt: HostRuntime) {
    is_right(&rt, answers(rt.alloc()));
}

/// The number of a new job of code 1.
fn submits(ctx: &mut DriverCtx) -> Option<u64> {
    if !has_room(ctx) {
        return None;
    }
    ctx.submit(9, 1, &Piece::empty()).ok()
}

/// The number of a new job of code 3.
fn submits_other(ctx: &mut DriverCtx) -> Option<u64> {
    if !has_room(ctx) {
        return None;
    }
    ctx.submit(9, 3, &Piece::empty()).ok()
}

/// The numbers of two jobs, and that of the next one.
fn numbers(alloc: Global) -> Option<(u64, u64, u64)> {
    let mut ctx = fresh(alloc)?;
    let first = submits(&mut ctx)?;
    let second = submits_other(&mut ctx)?;
    Some((first, second, ctx.next_job()))
}

#[test]
fn jobs_are_numbered_on(rt: HostRuntime) {
    is_right(&rt, numbers(rt.alloc()) == Some((4, 5, 6)));
}

const SELECTING: [ContextCall; 2] = [ContextCall::SelectRead(5), ContextCall::Unuse(5)];

const SELECTED: [ShownEffect; 2] = [ShownEffect::SelectsRead(5), ShownEffect::Unuse(5)];

#[test]
fn an_event_is_selected_and_given_up(rt: HostRuntime) {
    is_right(&rt, leaves(rt.alloc(), &SELECTING, &SELECTED));
}

/// The events 1 to 64.
fn events(alloc: Global) -> Option<Vec<u32>> {
    let mut held = Vec::new(alloc);
    for event in 1..65u32 {
        held.push(event).ok()?;
    }
    Some(held)
}

/// A context of a driver that holds these events.
fn holding(alloc: Global, held: &[u32]) -> Option<DriverCtx> {
    if held.len() > 64 {
        return None;
    }
    DriverCtx::new(alloc, 7, 0, held, DriverQueue::new(alloc)).ok()
}

/// Why events 64 and 65 aren't selected, if they aren't, where the events 1 to 64 are held.
fn faults(alloc: Global) -> Option<(Option<SelectFault>, Option<SelectFault>)> {
    let held = events(alloc)?;
    let mut ctx = holding(alloc, &held)?;
    let last = select_fault(&mut ctx, 64, Dir::Write);
    Some((last, select_fault(&mut ctx, 65, Dir::Read)))
}

#[test]
fn event_65_is_one_too_many(rt: HostRuntime) {
    let full = Some(SelectFault::Full { held: 64 });
    is_right(&rt, faults(rt.alloc()) == Some((None, full)));
}
