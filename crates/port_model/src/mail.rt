use crate::{Answer, Reason};
use port_signal::{Fits, Flag, Piece};

/// What a port sends to a process. Ports go by their place in the order of declaration, from 0.
#[derive(Drop)]
pub enum Mail {
    /// Data from the port's driver.
    Message {
        port: u32,
        flag: Flag,
        bytes: Piece,
    },
    /// The output of the port's program has ended.
    Eof(u32),
    /// The status of the port's program.
    Status {
        port: u32,
        status: i32,
    },
    /// The port was closed, as its owner asked.
    Closed(u32),
    /// The port has another owner, as its owner asked.
    Connected(u32),
    /// An exit signal of the port.
    Exit {
        port: u32,
        reason: Reason,
    },
    /// A monitor of the port, by the number that the process chose, tells of the port's end.
    Down {
        port: u32,
        monitor: u64,
        reason: Reason,
    },
    /// The answer to the signal that has this place among the signals of its sender to the port.
    Reply {
        port: u32,
        seq: u64,
        answer: Answer,
    },
    /// The command that has this place no longer suspends its sender: the word MSGQ that was loaded, and whether the port isn't open.
    Resume {
        port: u32,
        seq: u64,
        word: u64,
        closed: bool,
    },
}

// Every mail fits, in a mailbox with no key.
impl Fits for Mail {
    type Key = ();

    ghost fits = { λ key number mail. Unit {0} };
}
