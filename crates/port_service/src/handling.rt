//! A task that is handled.
use port_model::{Effect, Items, Outside, Reason, Sender};

/// Who sent a task: the sender, the process that calls, which is the owner where no process sent it, and whether the owner sent it.
#[derive(Clone, Copy, Debug, PartialEq, Eq)]
pub struct Caller {
    pub from: Sender,
    pub process: u32,
    pub owns: bool,
}

/// How a port stands when it handles a task.
#[derive(Clone, Copy)]
pub struct PortStanding<'a> {
    /// Whether the port is closing.
    pub closing: bool,
    /// The events that its driver holds.
    pub held: &'a [u32],
}

/// What handling a task made: the outside's answers and the driver's effects, in their order, the reason for which the port closes in this row, if
/// it does, and whether its driver was stopped.
#[derive(Drop)]
pub struct Handled {
    pub outside: Items<Outside>,
    pub effects: Items<Effect>,
    pub reason: Option<Reason>,
    pub stops: bool,
}
