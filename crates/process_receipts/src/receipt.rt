use port_history::Log;

/// What became of a call by which a process sends a signal to a port.
#[derive(Clone, Copy, Debug, PartialEq, Eq)]
pub enum Outcome {
    /// The signal was put into the port's lane.
    Accepted,
    /// The command was put into the port's lane, and its sender is suspended.
    Suspended,
    /// The port or its message queue was found busy, and nothing was put.
    Dropped,
    /// The port was found closed, and nothing was put.
    Closed,
    /// The command is forced, and the driver of the port takes none while it is busy. Nothing was put.
    NotSupported,
    /// The signal has more than 262,143 bytes of data. Nothing was put.
    TooLong,
    /// The process has made 131,072 calls. Nothing was put.
    SentOut,
}

/// The receipt of one call by which a process sends a signal to a port.
#[derive(Clone, Copy, Debug, PartialEq, Eq)]
pub struct Receipt {
    /// The line of the script that made the call, from 1, and 0 for the calls at the end of the process.
    pub line: u32,
    /// The port, by its place in the order of declaration, from 0.
    pub port: u32,
    /// The place of the signal among those of its sender in the port's lane, from 0, where it was put.
    pub seq: Option<u64>,
    /// The STAT word that the call found, where it looked.
    pub stat: Option<u64>,
    /// The MSGQ word that the command left, where its bytes were added, or by which it was dropped.
    pub msgq: Option<u64>,
    pub outcome: Outcome,
}

/// The receipts of one process, in the order of its calls.
pub type Receipts = Log<Receipt>;
