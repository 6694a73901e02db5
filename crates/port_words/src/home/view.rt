// What a seat of a home knows, as plain data. No value of it is made.
use std::collections::LinkedList;
use std::snapshot::Snapshot;

/// The body with which the home was made, and how many seats it has in all.
#[derive(Drop)]
pub struct HomeKey<B> {
    pub body: Snapshot<B>,
    pub seats: u32,
}

/// The turns by what became of them. `made` are the tickets made, `claimed` and `stale` the tickets that began their turn and that came too late, `idle` the turns
/// begun without a ticket, `withdrawn` the ticket that the end of the home took back, `found` the words found, and `running` the turn that this seat runs.
pub struct HomeView<B> {
    pub body: Option<Snapshot<B>>,
    pub seats: u32,
    pub shares: u32,
    pub made: LinkedList<u64>,
    pub claimed: LinkedList<u64>,
    pub idle: LinkedList<u64>,
    pub withdrawn: LinkedList<u64>,
    pub stale: LinkedList<u64>,
    pub found: LinkedList<u64>,
    pub running: Option<u64>,
}
