// What a seat of the table knows, as plain data. No value of it is made but the limits and what one add is.
use std::collections::LinkedList;

/// How a command is added: a plain one, one that is refused in place of suspending its sender, and one that no state refuses.
#[derive(Debug, Clone, Copy, PartialEq, Eq)]
pub enum AddHow {
    Plain,
    NoSuspend,
    Forced,
}

/// The limits of a message queue, in bytes, where they are on.
#[derive(Clone, Copy)]
pub struct QueueLimits {
    pub on: bool,
    pub low: u32,
    pub high: u32,
}

/// What a table is made with: its limits, and how many senders have a seat.
#[derive(Clone, Copy)]
pub struct BusySetup {
    pub limits: QueueLimits,
    pub senders: u32,
}

/// One change of a port's state that STAT shows to its senders.
#[derive(Debug, Clone, Copy, PartialEq, Eq)]
pub enum StatMark {
    /// The port takes no commands from now on.
    Busy,
    /// The port takes commands again.
    Free,
    /// The port is no longer open.
    Closed,
}

/// Which add it is: its sender's number, its place among the adds of that sender, and its size in bytes.
pub struct AddName {
    pub sender: u32,
    pub place: u32,
    pub size: u32,
}

/// One add, and the word that it left.
pub struct QueueAdd {
    pub name: AddName,
    pub how: AddHow,
    pub word: u64,
}

/// The adds that a sender made, and those of them that it took back.
pub struct SenderLedger {
    pub number: u32,
    pub adds: LinkedList<QueueAdd>,
    pub undone: LinkedList<AddName>,
}

/// A sender: the STAT words that it found, its adds, and the MSGQ words that it found or left.
pub struct SenderView {
    pub stats: LinkedList<u64>,
    pub ledger: SenderLedger,
    pub words: LinkedList<u64>,
}

/// What one seat knows. The port's has the marks, the weights that it removed, the MSGQ words that it found or left, and the senders whose seats it took in, each
/// apart. A sender's has that sender. A weight's names its add.
pub struct BusyView {
    pub setup: BusySetup,
    pub port: bool,
    pub marks: LinkedList<StatMark>,
    pub senders: LinkedList<SenderView>,
    pub weights: LinkedList<AddName>,
    pub removed: LinkedList<AddName>,
    pub words: LinkedList<u64>,
}

/// What an add is about to be.
#[derive(Clone, Copy)]
pub struct PlannedAdd {
    pub how: AddHow,
    pub size: u32,
}
