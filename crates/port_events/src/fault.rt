ghost use Rattle.std.specs.Prelude.{◌≡◌};
ghost use Rattle.port_events.specs.Asks.{start_fault};

use no_memory::NoMemory;

/// Why a port's events can't follow a handled task.
#[derive(Clone, Copy, Debug, PartialEq, Eq)]
pub enum EventFault {
    /// No memory was found.
    NoMemory,
    /// A callback selected an event that waits for the poller, or a 65th one.
    NoRoom,
}

impl From<NoMemory> for EventFault {
    ghost use Rattle.port_events.specs.declared.fault.EventFault.{EventFault};

    ghost from_gives = { λ _ e. e ≡ EventFault.NoMemory };

    fn from(_: NoMemory) -> EventFault {
        EventFault::NoMemory
    }
}

/// Why a port's events can't follow the start of its driver.
#[derive(Clone, Copy, Debug, PartialEq, Eq)]
pub enum StartFault {
    /// No memory was found.
    NoMemory,
    /// The driver selected a 65th event.
    NoRoom,
    /// The driver gave an event up, and a start has no row in which `stop_select` could be called.
    GaveUp,
}

impl From<EventFault> for StartFault {
    ghost from_gives = { λ f e. e ≡ start_fault f };

    fn from(fault: EventFault) -> StartFault {
        match fault {
            EventFault::NoMemory => StartFault::NoMemory,
            EventFault::NoRoom => StartFault::NoRoom,
        }
    }
}
