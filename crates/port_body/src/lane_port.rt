use crate::{Driver, Parcel, RecordedPort};
use std::marker::Model;
use task_queue::TakeEnd;
use waiting_parcels::WaitingList;

/// A port, its end of the lane, and the tasks that it took and that wait, among so many processes and workers.
#[derive(Drop)]
pub(crate) struct LanePort<D: Driver> {
    pub(crate) port: RecordedPort<D>,
    pub(crate) lane: TakeEnd<Parcel>,
    pub(crate) waiting: WaitingList,
    pub(crate) processes: u32,
    pub(crate) workers: u32,
}

impl<D: Driver> Model for LanePort<D> {
    ghost use Rattle.port_body.specs.LanePort.{LanePortView};

    ghost Value = { LanePortView };

    ghost view = { λ p. record { port = p.port; lane = p.lane; waiting = p.waiting; processes = p.processes; workers = p.workers } };
}
