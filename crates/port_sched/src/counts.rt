ghost use Rattle.std.specs.Prelude.{◌≡◌, ◌+◌};
ghost use Rattle.run_queue.specs.Seats.{counted};

/// How many turns a scheduler made. A count goes no further than 2^64 - 1.
#[derive(Clone, Copy, Debug, PartialEq, Eq)]
pub struct TurnCounts {
    /// The turns that began with a ticket.
    pub queued: u64,
    /// The turns of ports that were found idle, which need no ticket.
    pub idle: u64,
}

impl TurnCounts {
    // One more turn that began with a ticket.
    pub(crate) fn add_queued(&mut self)
        ensures { self.new ≡ record self.old { queued = counted (self.old.queued + 1) } }
    {
        self.queued = self.queued.saturating_add(1);
    }

    // One more turn of an idle port.
    pub(crate) fn add_idle(&mut self)
        ensures { self.new ≡ record self.old { idle = counted (self.old.idle + 1) } }
    {
        self.idle = self.idle.saturating_add(1);
    }
}
