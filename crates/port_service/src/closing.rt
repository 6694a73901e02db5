//! How a row ends the service of a port's driver.
ghost use Rattle.std.specs.Prelude.{◌≡◌, ◌≤◌, false, OnOk, if◌then◌else◌};
ghost use Rattle.port_driver.specs.driver_model.Calls.{is_empty};
ghost use Rattle.port_driver.specs.Driven.{Keeps, MayCall};
ghost use Rattle.port_driver.specs.Faults.{CountsFailures};
ghost use Rattle.port_history.specs.Ties.{failure};
ghost use Rattle.port_service.specs.Closing.{ends_driver, is_flushed, Flushed, Halted};

use port_driver::{Driver, DriverCtx, Life};
use port_model::{Effect, NoMemory, Reason};
use std::alloc::Global;

/// The reason of the first failure among these effects.
pub(crate) fn failure(effects: &[Effect]) -> Option<Reason>
    ensures { result ≡ failure effects.now }
{
    for effect in effects {
        if let Effect::Fail(reason) = effect {
            return Some(reason.same());
        }
    }
    None
}

/// Whether the driver of a port that closes for a reason, if it does, has bytes queued that are flushed.
fn is_flushed(ctx: &DriverCtx, reason: &Option<Reason>) -> bool
    ensures { result ≡ is_flushed reason.now (is_empty ctx.now.queue) }
{
    match reason {
        Some(reason) => !reason.is_kill() && !ctx.is_drained(),
        None => false,
    }
}

/// Has the driver flushed, where its port closes for a reason and bytes are queued, unless the port is killed.
pub(crate) fn flush_queued<D: Driver>(
    alloc: Global,
    driver: &mut D,
    ctx: &mut DriverCtx,
    reason: &Option<Reason>,
) -> Result<(), NoMemory>
    requires called { MayCall (D.stage driver.old) ctx.old }
    ensures kept { Keeps (D.kind driver.old) (D.kind driver.new) (D.faults driver.old) (D.faults driver.new) (D.stage driver.new) ctx.old ctx.new }
    ensures counted { OnOk result (CountsFailures ctx.old.outside ctx.new.outside (D.faults driver.old) (D.faults driver.new)) }
    ensures flushed { OnOk result (Flushed (D.kind driver.old) reason.now (D.own driver.old) (D.own driver.new) (D.program driver.old) (D.program driver.new) ctx.old ctx.new) }
{
    if !is_flushed(ctx, reason) {
        return Ok(());
    }
    driver.flush(alloc, ctx)
}

/// Whether the driver is stopped in this row.
pub(crate) fn ends_driver(ctx: &DriverCtx, reason: &Option<Reason>, closing: bool) -> bool
    ensures { result ≡ ends_driver reason.now closing (is_empty ctx.now.queue) }
{
    match reason {
        Some(reason) => reason.is_kill() || ctx.is_drained(),
        None => closing && ctx.is_drained(),
    }
}

/// Stops the driver, where it is to be stopped.
pub(crate) fn halt<D: Driver>(driver: &mut D, stops: bool)
    requires started { D.stage driver.old ≡ Life.Started }
    ensures kind { D.kind driver.new ≡ D.kind driver.old }
    ensures faults { D.faults driver.old ≤ D.faults driver.new }
    ensures stage { D.stage driver.new ≡ (if stops then Life.Stopped else Life.Started) }
    ensures halted { Halted (D.kind driver.old) stops (D.own driver.old) (D.own driver.new) (D.program driver.old) (D.program driver.new) }
{
    if stops {
        driver.stop();
    }
}
