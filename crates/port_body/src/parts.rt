use crate::{Driver, Parcel};
use recorded_port::{PortEnd, PortParts};
use task_queue::TakeEnd;

/// What a body is opened with: the parts of its port, the taking end of its lane, and how many workers there are.
#[derive(Drop)]
pub struct BodyParts<D: Driver> {
    pub port: PortParts<D>,
    pub lane: TakeEnd<Parcel>,
    pub workers: u32,
}

/// What a body ends with: what its port ends with, and the taking end of its lane.
#[derive(Drop)]
pub struct BodyEnd<D: Driver> {
    pub port: PortEnd<D>,
    pub lane: TakeEnd<Parcel>,
}
