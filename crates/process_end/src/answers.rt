use crate::{Proc, Stopped};
use port_lanes::Parcel;
use port_model::{Mail, Piece, Reason};
use port_words::busy::SendSeat;
use process_receipts::Receipts;
use task_queue::{SendEnd, TakeEnd};

/// What a process has to begin with. `lanes`, `seats` and `soft` stand in the order of the ports.
#[derive(Drop)]
pub struct ProcParts {
    /// The place of the process in the order of declaration, from 0.
    pub number: u32,
    pub mailbox: TakeEnd<Mail>,
    pub lanes: Vec<SendEnd<Parcel>>,
    pub seats: Vec<SendSeat>,
    /// Whether the port's driver takes forced commands while the port is busy.
    pub soft: Vec<bool>,
}

/// What is left of a process that has ended. `lanes` and `seats` stand in the order of the ports.
#[derive(Drop)]
pub struct ProcEnd {
    /// The receipts of its calls, in their order. The last ones tell the ports of its end.
    pub receipts: Receipts,
    pub mailbox: TakeEnd<Mail>,
    pub lanes: Vec<SendEnd<Parcel>>,
    pub seats: Vec<SendSeat>,
}

/// A signal that is no command. Processes and monitors go by their numbers.
#[derive(Drop)]
pub enum Ask {
    Control { op: u32, bytes: Piece },
    Call { op: u32, bytes: Piece },
    Close,
    OwnerClose,
    Connect(u32),
    OwnerConnect(u32),
    Link,
    Unlink,
    Monitor(u64),
    Demonitor(u64),
    Exit(Reason),
}

/// Why a signal wasn't put.
#[derive(Clone, Copy, Debug, PartialEq, Eq)]
pub enum SendRefusal {
    /// The port was found closed; it had made so many marks.
    Closed { mark: u64 },
    /// The command is forced, and the port's driver takes none while it is busy.
    NotSupported,
    /// The signal has so many bytes of data, more than 262,143.
    TooLong { len: u64 },
    /// The process has made 131,072 calls.
    SentOut,
    NoMemory,
}

/// The word by which a command was dropped: STAT, or MSGQ.
#[derive(Clone, Copy, Debug, PartialEq, Eq)]
pub enum Shown {
    Stat(u64),
    Msgq(u64),
}

/// What became of a command.
#[derive(Drop)]
pub enum Commanded {
    /// It was put, at this place among the signals of the process to the port, from 0.
    Accepted(Proc, u64),
    /// It was put, and the process is suspended.
    Suspended(Stopped),
    /// The port or its queue was busy, by this word.
    Dropped(Proc, Shown),
    Refused(Proc, SendRefusal),
}

/// Why a suspended process doesn't go on yet.
#[derive(Drop)]
pub enum NotYet {
    /// The mailbox was empty.
    Empty,
    /// Another mail than the resume came.
    Other(Mail),
    /// The resume has come, and the queue is still busy in the period of the command, by this word.
    SamePeriod { word: u64 },
}
