use crate::options::PortOptions;
use script_plan::{FileName, Piece, Reason};

/// What a line says. Names are as they are written: whether they are declared isn't asked here.
#[derive(Drop)]
pub(crate) enum Statement {
    Nothing,
    Process(Reason),
    Port {
        name: Reason,
        process: Reason,
        driver: Reason,
        options: PortOptions,
    },
    Journal(FileName),
    Save {
        process: Reason,
        port: Reason,
        name: FileName,
    },
    Step {
        process: Reason,
        port: Reason,
        action: Action,
    },
    Die {
        process: Reason,
        reason: Reason,
    },
}

/// What a command does where its port is busy: HOW.
#[derive(Clone, Copy, Debug)]
pub(crate) struct CommandOptions {
    pub force: bool,
    pub nosuspend: bool,
}

/// What a process does at a port.
#[derive(Drop)]
pub(crate) enum Action {
    Command {
        bytes: Piece,
        how: CommandOptions,
    },
    File {
        size: u32,
        name: FileName,
        how: CommandOptions,
    },
    Send(Piece),
    Control {
        op: u32,
        bytes: Piece,
    },
    /// A call, with the external form of its term.
    Call {
        op: u32,
        bytes: Piece,
    },
    Close,
    Connect(Reason),
    SendClose,
    SendConnect(Reason),
    Link,
    Unlink,
    Monitor,
    Demonitor,
    Exit(Reason),
    Expect(u64),
    Bytes(u64),
}
