//! Where each port takes its tasks from, and where it puts what it sends and marks.
ghost use Rattle.std.specs.Prelude.{◌≡◌, map, IfOk};
ghost use Rattle.run_opening.specs.Opened.{limits_of, room_of};

use driver_hosts::{PortEnds, PortOutlets, PortRoom};
use no_memory::NoMemory;
use port_config::Config;
use port_words::busy::QueueLimits;
use run_lanes::{LaneSize, PortLanes};
use script_plan::PortDecl;
use std::alloc::Global;

// The limits of a port's message queue.
fn limits_of(config: &Config) -> QueueLimits
    ensures { result ≡ limits_of config.now }
{
    QueueLimits {
        on: config.msgq_on,
        low: config.msgq_low,
        high: config.msgq_high,
    }
}

/// The limits of each port's message queue, in the order of the ports.
pub(crate) fn all_limits(alloc: Global, ports: &[PortDecl]) -> Result<Vec<QueueLimits>, NoMemory>
    ensures { IfOk result (λ limits. limits.items ≡ map (λ p. limits_of p.config) ports.now) }
{
    let mut limits = Vec::new(alloc);
    for port in ports {
        limits.push(limits_of(&port.config))?;
    }
    Ok(limits)
}

fn room_of(size: LaneSize, port: PortLanes) -> PortRoom
    ensures { result ≡ room_of size port }
{
    let PortLanes {
        lane,
        mailboxes,
        seat,
        asks,
        pool,
    } = port;
    PortRoom {
        lane,
        outlets: PortOutlets {
            mailboxes,
            seat,
            ends: PortEnds { asks, pool },
        },
        processes: size.processes,
        workers: size.workers,
        rows: size.rows,
    }
}

/// The room of each port, in the order of the ports.
pub(crate) fn rooms(
    alloc: Global,
    size: LaneSize,
    ports: Vec<PortLanes>,
) -> Result<Vec<PortRoom>, NoMemory>
    ensures { IfOk result (λ rooms. rooms.items ≡ map (room_of size) ports.items) }
{
    let mut rooms = Vec::new(alloc);
    for port in ports {
        rooms.push(room_of(size, port))?;
    }
    Ok(rooms)
}
