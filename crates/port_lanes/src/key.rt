ghost use Rattle.std.specs.Prelude.{◌≡◌};

use port_words::busy::PortSeat;
use std::marker::Model;
use std::snapshot::Snapshot;

/// The key of a port's lane: how many processes and how many workers there are, and the port's words.
///
/// Ends are numbered by it: the processes by their numbers, then the poller, then the workers.
#[derive(Drop)]
pub struct LaneKey {
    processes: u32,
    workers: u32,
    seat: Snapshot<PortSeat>,
}

impl Model for LaneKey {
    ghost use Rattle.port_lanes.specs.Keys.{Key};

    ghost Value = { Key };

    ghost view = { λ k. record { processes = k.processes; workers = k.workers; table = k.seat.value.table } };
}

impl LaneKey {
    /// The key of the lane of the port that has this seat.
    pub fn new(processes: u32, workers: u32, seat: &PortSeat) -> LaneKey
        ensures { result ≡ record { processes = processes; workers = workers; table = seat.now.table } }
    {
        LaneKey {
            processes,
            workers,
            seat: Snapshot::of(seat),
        }
    }
}
