ghost use Rattle.std.specs.Prelude.{◌≡◌, All, IfOk};
ghost use Rattle.driver_hosts.specs.Hosts.{IsUnused};
ghost use Rattle.gateway.specs.Fresh.{hosted};

use driver_hosts::Hosted;
use no_memory::NoMemory;
use port_driver::{Driver, Life};
use std::alloc::Global;

/// These drivers as a run takes them: each that is fresh, and serves no port. The others are left out.
pub fn host_drivers<D: Driver>(alloc: Global, drivers: Vec<D>) -> Result<Vec<Hosted<D>>, NoMemory>
    ensures hosted { IfOk result (λ hosts. hosts.items ≡ hosted D.stage drivers.items) }
    ensures unused { IfOk result (λ hosts. All (IsUnused D.stage) hosts.items) }
{
    let mut hosts = Vec::new(alloc);
    for driver in drivers {
        match driver.life() {
            Life::Fresh => hosts.push(Hosted {
                port: None,
                driver: Some(driver),
            })?,
            Life::Started | Life::Stopped => {}
        }
    }
    Ok(hosts)
}
