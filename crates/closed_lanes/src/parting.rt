// What is kept of ended ports.
ghost use Rattle.std.specs.Prelude.{◌≡◌, ◌<◌, length, map, All, IfOk};
ghost use Rattle.closed_lanes.specs.Parts.{ArePartedInto, closed_of, events_of};

use crate::closing::ClosedPort;
use async_jobs::WorkItem;
use closed_ports::{Driver, EndedPort, Hosted};
use no_memory::NoMemory;
use run_lanes::next_of;
use std::alloc::Global;
use task_queue::SendEnd;

// The events of the program of the driver at a place, 0 and 0 without one.
fn events_of<D: Driver>(host: &Hosted<D>) -> (u32, u32)
    ensures { result ≡ events_of D.own host.now }
{
    match &host.driver {
        Some(driver) => driver.events(),
        None => (0, 0),
    }
}

// What is kept of a port whose driver's program has these events, and the port's ends of the workers' lanes.
fn part_port(port: EndedPort, events: (u32, u32)) -> (ClosedPort, Vec<SendEnd<WorkItem>>)
    ensures kept { result.0 ≡ closed_of events port }
    ensures pool { result.1.items ≡ port.outlets.ends.pool }
{
    let EndedPort {
        config,
        journal,
        outlets,
        ..
    } = port;
    let kept = ClosedPort {
        config,
        events,
        journal,
        mailboxes: outlets.mailboxes,
        seat: outlets.seat,
    };
    (kept, outlets.ends.pool.into_lanes())
}

/// What is kept of each port, with the events of the driver that is back at its place; and the ports' ends of the workers' lanes.
pub(crate) fn part_ports<D: Driver>(
    alloc: Global,
    hosts: &[Hosted<D>],
    places: &[usize],
    ports: Vec<EndedPort>,
) -> Result<(Vec<ClosedPort>, Vec<Vec<SendEnd<WorkItem>>>), NoMemory>
    requires len { length places.now ≡ length ports.items }
    requires within { All (λ at. at < length hosts.now) places.now }
    ensures { IfOk result (λ r. ArePartedInto D.own hosts.now places.now ports.items r.0.items (map (λ p. p.items) r.1.items)) }
{
    let mut left = ports.into_iter();
    let mut all = Vec::new(alloc);
    let mut pools = Vec::new(alloc);
    for place in places {
        let (port, pool) = part_port(next_of(&mut left), events_of(&hosts[*place]));
        all.push(port)?;
        pools.push(pool)?;
    }
    Ok((all, pools))
}
