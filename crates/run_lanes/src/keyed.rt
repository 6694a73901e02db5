// The lanes of ports, whose keys have the ports' words.
ghost use Rattle.std.specs.Prelude.{◌+◌, ◌<◌, ◌≤◌, ◌^◌, map, IfOk};
ghost use Rattle.run_lanes.specs.Ends.{AreEndColumns};
ghost use Rattle.run_lanes.specs.Keyed.{ends_in, ArePortLanes};

use crate::columns::transposed;
use crate::making::add_lane;
use crate::size::LaneSize;
use no_memory::NoMemory;
use port_words::busy::PortSeat;
use process_end::{LaneKey, Parcel};
use std::alloc::Global;
use std::snapshot::Snapshot;
use task_queue::{SendEnd, TakeEnd};

/// A lane for each port, and their ends by their numbers: those of the processes, then the poller's, then those of the workers.
pub(crate) fn port_lanes(
    alloc: Global,
    size: LaneSize,
    seats: &[PortSeat],
) -> Result<(Vec<TakeEnd<Parcel>>, Vec<Vec<SendEnd<Parcel>>>), NoMemory>
    requires { (size.processes ≤ 32) × (size.workers ≤ 8) }
    ensures takers { IfOk result (λ r. ArePortLanes size seats.now r.0.items) }
    ensures ends { IfOk result (λ r. AreEndColumns r.0.items (ends_in size) (map (λ c. c.items) r.1.items)) }
{
    let ends = size.processes + 1 + size.workers;
    let mut takers = Vec::new(alloc);
    let mut rows = Vec::new(alloc);
    'ports: for seat in seats {
        let key = LaneKey::new(size.processes, size.workers, seat);
        add_lane(alloc, Snapshot::of(&key), ends, &mut takers, &mut rows)?;
    }
    let columns = transposed(alloc, rows, ends as usize)?;
    Ok((takers, columns))
}
