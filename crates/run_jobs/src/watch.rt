ghost use Rattle.std.specs.Prelude.{◌≡◌, []};

use outside::PollSet;
use ready_select::{PollAsk, PollTable};
use std::alloc::Global;
use task_queue::TakeEnd;

/// What a poller watches: a poll set, the events that are armed, and what the ports ask.
#[derive(Drop)]
pub struct Watch<S: PollSet> {
    pub poll: S,
    pub table: PollTable,
    pub asks: TakeEnd<PollAsk>,
}

impl<S: PollSet> Watch<S> {
    /// Nothing is armed.
    pub fn new(alloc: Global, poll: S, asks: TakeEnd<PollAsk>) -> Watch<S>
        ensures { result ≡ record { poll = poll; table = []; asks = asks } }
    {
        Watch {
            poll,
            table: PollTable::new(alloc),
            asks,
        }
    }
}
