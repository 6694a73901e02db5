use port_body::{Parcel, PortOutlets};
use task_queue::TakeEnd;

/// Where a port of a run with so many processes and workers takes its tasks from, and where it puts what it sends and what it marks. It has room for so many rows at
/// once.
#[derive(Drop)]
pub struct PortRoom {
    pub lane: TakeEnd<Parcel>,
    pub outlets: PortOutlets,
    pub processes: u32,
    pub workers: u32,
    pub rows: usize,
}
