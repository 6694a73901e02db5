use port_model::Dir;
use task_queue::Fits;

/// What a port asks of the poller, and what the poller tells a port.
///
/// A port puts `Arm` where it wants to know once that an event is ready in a direction, and `Drop` where it gives an event
/// up. The poller finds an `Arm` where the event is ready, and a `Drop` where it will tell nothing more of the event.
/// Ports and events go by their numbers. `Finish` ends the poller's rounds.
#[derive(Clone, Copy, Debug, PartialEq, Eq)]
pub enum PollAsk {
    Arm { port: u32, event: u32, dir: Dir },
    Drop { port: u32, event: u32 },
    Finish,
}

// Every ask fits, in a lane with no key.
impl Fits for PollAsk {
    type Key = ();

    ghost fits = { λ key number ask. Unit {0} };
}

/// How a round of the poller ended.
#[derive(Clone, Copy, Debug, PartialEq, Eq)]
pub enum Polled {
    /// It waited once.
    Round,
    /// It took a `Finish`, and didn't wait.
    Finished,
    /// Its wait failed.
    Failed,
    NoMemory,
}
