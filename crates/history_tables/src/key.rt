//! The senders of tasks and their tasks, in an order.
ghost use Rattle.std.specs.Prelude.{◌≡◌};
ghost use Rattle.history_tables.specs.Keys.{key_of, task_key};

use port_model::Sender;

/// A sender, in an order.
#[derive(Clone, Copy, Debug, PartialEq, Eq, PartialOrd, Ord)]
pub enum SenderKey {
    Process(u32),
    Poller,
    Worker(u32),
    Timer,
}

/// A task by its sender and its place in that sender's order, from 0.
#[derive(Clone, Copy, Debug, PartialEq, Eq, PartialOrd, Ord)]
pub struct TaskKey {
    pub from: SenderKey,
    pub seq: u64,
}

impl SenderKey {
    /// The key of a sender.
    pub(crate) fn of(from: Sender) -> SenderKey
        ensures { result ≡ key_of from }
    {
        match from {
            Sender::Process(process) => SenderKey::Process(process),
            Sender::Poller => SenderKey::Poller,
            Sender::Worker(worker) => SenderKey::Worker(worker),
            Sender::Timer => SenderKey::Timer,
        }
    }
}

impl TaskKey {
    /// The key of a task.
    pub(crate) fn of(from: Sender, seq: u64) -> TaskKey
        ensures { result ≡ task_key from seq }
    {
        TaskKey {
            from: SenderKey::of(from),
            seq,
        }
    }
}
