use port_lanes::Parcel;
use task_queue::Item;

/// A task in the queue of its sender. Of two tasks the one with the lower stamp came earlier.
#[derive(Drop)]
pub(crate) struct Arrival {
    pub stamp: u64,
    pub item: Item<Parcel>,
}

/// The first task of a queue: the place of its sender among those that wait, and its stamp.
#[derive(Clone, Copy)]
pub(crate) struct Head {
    pub place: usize,
    pub stamp: u64,
}
