//! How a driver begins to serve a port.
ghost use Rattle.std.specs.Prelude.{◌≡◌, ◌≤◌, ◌⊎◌, [], IfOk, IfErr, OnErr, OnOk, None};
ghost use Rattle.port_driver.specs.driver_model.Drivers.{refusal_of};
ghost use Rattle.port_driver.specs.Driven.{Began};
ghost use Rattle.port_driver.specs.Starting.{Refuses};

use driver_queue::DriverQueue;
use port_driver::{Config, Driver, DriverCtx, Life, StartRefusal};
use std::alloc::Global;

/// Starts a fresh driver. Answers the context in which it started.
pub(crate) fn begin<D: Driver>(
    alloc: Global,
    driver: &mut D,
    config: &Config,
    owner: u32,
) -> Result<DriverCtx, StartRefusal>
    requires { D.stage driver.old ≡ Life.Fresh }
    ensures kind { D.kind driver.new ≡ D.kind driver.old }
    ensures faults { D.faults driver.old ≤ D.faults driver.new }
    ensures started { OnOk result (D.stage driver.new ≡ Life.Started) }
    ensures starts { OnOk result (refusal_of (D.kind driver.old) config.now ≡ None) }
    ensures began { IfOk result (λ ctx. (ctx.caller ≡ owner) × Began (D.kind driver.old) config.now (D.own driver.new) (D.program driver.new) (record { caller = owner; next_job = 0; held = []; queue = []; outside = []; effects = [] }) ctx) }
    ensures refused { OnErr result ((D.stage driver.new ≡ Life.Fresh) ⊎ (D.stage driver.new ≡ Life.Stopped)) }
    ensures refusal { IfErr result (Refuses (D.kind driver.old) config.now (D.faults driver.old) (D.faults driver.new)) }
{
    let Ok(mut ctx) = DriverCtx::new(alloc, owner, 0, &[], DriverQueue::new(alloc)) else {
        return Err(StartRefusal::NoMemory);
    };
    driver.start(alloc, &mut ctx, config)?;
    Ok(ctx)
}
