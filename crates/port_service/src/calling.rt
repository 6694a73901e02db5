//! The callback of a signal.
ghost use Rattle.std.specs.Prelude.{Some, None, OnOk, if◌then◌else◌};
ghost use Rattle.std.specs.List.{concat};
ghost use Rattle.port_driver.specs.driver_model.Calls.{Outputv, ProcessExit};
ghost use Rattle.port_driver.specs.Faults.{CountsFailures};
ghost use Rattle.port_service.specs.Callbacks.{callback_by};
ghost use Rattle.port_service.specs.Called.{Called, IsUncalled, KeepsFew};

use port_driver::{Driver, DriverCtx};
use port_model::{Dir, IoVec, NoMemory, Signal};
use std::alloc::Global;

/// Gives the driver the data of an owner's command, where the owner sent it.
fn call_outputv<D: Driver>(
    alloc: Global,
    driver: &mut D,
    ctx: &mut DriverCtx,
    owns: bool,
    payload: &IoVec,
) -> Result<(), NoMemory>
    requires fresh { IsUncalled (D.stage driver.old) ctx.old }
    ensures kept { KeepsFew (D.kind driver.old) (D.kind driver.new) (D.faults driver.old) (D.faults driver.new) (D.stage driver.new) ctx.old ctx.new }
    ensures counted { OnOk result (CountsFailures ctx.old.outside ctx.new.outside (D.faults driver.old) (D.faults driver.new)) }
    ensures called { OnOk result (Called (D.kind driver.old) (if owns then Some (Outputv (concat payload.now)) else None) (D.own driver.old) (D.own driver.new) (D.program driver.old) (D.program driver.new) ctx.old ctx.new) }
{
    if !owns {
        return Ok(());
    }
    driver.outputv(alloc, ctx, payload)
}

/// Tells the driver of the end of the caller, where it watches it.
fn call_process_exit<D: Driver>(
    alloc: Global,
    driver: &mut D,
    ctx: &mut DriverCtx,
    watched: bool,
) -> Result<(), NoMemory>
    requires fresh { IsUncalled (D.stage driver.old) ctx.old }
    ensures kept { KeepsFew (D.kind driver.old) (D.kind driver.new) (D.faults driver.old) (D.faults driver.new) (D.stage driver.new) ctx.old ctx.new }
    ensures counted { OnOk result (CountsFailures ctx.old.outside ctx.new.outside (D.faults driver.old) (D.faults driver.new)) }
    ensures called { OnOk result (Called (D.kind driver.old) (if watched then Some (ProcessExit ctx.old.caller) else None) (D.own driver.old) (D.own driver.new) (D.program driver.old) (D.program driver.new) ctx.old ctx.new) }
{
    if !watched {
        return Ok(());
    }
    let process = ctx.caller();
    driver.process_exit(alloc, ctx, process)
}

/// Calls the driver's callback for a signal of the owner or of another, if it has one. The driver may watch the sender.
pub(crate) fn call_driver<D: Driver>(
    alloc: Global,
    driver: &mut D,
    ctx: &mut DriverCtx,
    owns: bool,
    watched: bool,
    signal: &Signal,
) -> Result<(), NoMemory>
    requires fresh { IsUncalled (D.stage driver.old) ctx.old }
    ensures kept { KeepsFew (D.kind driver.old) (D.kind driver.new) (D.faults driver.old) (D.faults driver.new) (D.stage driver.new) ctx.old ctx.new }
    ensures counted { OnOk result (CountsFailures ctx.old.outside ctx.new.outside (D.faults driver.old) (D.faults driver.new)) }
    ensures called { OnOk result (Called (D.kind driver.old) (callback_by owns watched ctx.old.caller signal.now) (D.own driver.old) (D.own driver.new) (D.program driver.old) (D.program driver.new) ctx.old ctx.new) }
{
    match signal {
        Signal::Command(payload) => driver.outputv(alloc, ctx, payload),
        Signal::OwnerCommand(payload) => call_outputv(alloc, driver, ctx, owns, payload),
        Signal::Control { op, bytes } => {
            let answer = driver.control(alloc, ctx, *op, bytes)?;
            ctx.reply(answer)
        }
        Signal::Call { op, bytes } => {
            let answer = driver.call(alloc, ctx, *op, bytes)?;
            ctx.reply(answer)
        }
        Signal::Ready { event, dir } => match dir {
            Dir::Read => driver.ready_input(alloc, ctx, *event),
            Dir::Write => driver.ready_output(alloc, ctx, *event),
        },
        Signal::AsyncDone { number, output } => driver.ready_async(alloc, ctx, *number, output),
        Signal::Gone(_) => call_process_exit(alloc, driver, ctx, watched),
        Signal::Close => Ok(()),
        Signal::OwnerClose => Ok(()),
        Signal::Connect(_) => Ok(()),
        Signal::OwnerConnect(_) => Ok(()),
        Signal::Link => Ok(()),
        Signal::Unlink => Ok(()),
        Signal::Monitor(_) => Ok(()),
        Signal::Demonitor(_) => Ok(()),
        Signal::Exit(_) => Ok(()),
        Signal::Dropped(_) => Ok(()),
    }
}
