//! How a driver begins.
ghost use Rattle.std.specs.Prelude.{◌≡◌, ◌≤◌, [], length, IfOk};
ghost use Rattle.std.specs.List.{concat};
ghost use Rattle.history_driver.specs.Kinds.{kind_of};
ghost use Rattle.history_driver.specs.Running.{kind_in, own_in};
ghost use Rattle.history_driver.specs.Calling.{Begins};

use crate::running::RunningDriver;
use crate::sample::{Sample, SampleDriver};
use crate::{Config, DriverKind};
use driver_queue::DriverQueue;
use port_driver::DriverCtx;
use port_model::NoMemory;
use spawn_driver::RecordedProgram;
use std::alloc::Global;

/// A context in which nothing was done.
pub(crate) fn context(
    alloc: Global,
    caller: u32,
    next_job: u64,
    held: &[u32],
    queue: DriverQueue,
) -> Result<DriverCtx, NoMemory>
    requires { length held.now ≤ 64 }
    ensures { IfOk result (λ ctx. ctx ≡ record { caller = caller; next_job = next_job; held = held.now; queue = concat queue.segments; outside = []; effects = [] }) }
{
    match DriverCtx::new(alloc, caller, next_job, held, queue) {
        Ok(ctx) => Ok(ctx),
        Err((_, no_memory)) => Err(no_memory),
    }
}

/// Starts a driver of this kind in a context in which nothing was done. The two events are those of its program, 0 and 0 without one.
pub(crate) fn begin(
    alloc: Global,
    ctx: &mut DriverCtx,
    kind: DriverKind,
    config: &Config,
    events: (u32, u32),
) -> Result<RunningDriver, NoMemory>
    requires queue { ctx.old.queue ≡ [] }
    requires held { ctx.old.held ≡ [] }
    requires jobs { ctx.old.next_job ≡ 0 }
    requires outside { ctx.old.outside ≡ [] }
    requires effects { ctx.old.effects ≡ [] }
    ensures kind { IfOk result (λ driver. kind_in driver ≡ kind_of kind) }
    ensures begins { IfOk result (λ driver. Begins (kind_of kind) config.now ctx.old.caller events.0 events.1 (own_in driver) ctx.new) }
{
    match Sample::new(kind) {
        Some(sample) => {
            let driver = SampleDriver::start(alloc, ctx, sample, config)?;
            Ok(RunningDriver::Sample(driver))
        }
        None => {
            let program = RecordedProgram::start(alloc, ctx, config, events)?;
            Ok(RunningDriver::Program(program))
        }
    }
}
