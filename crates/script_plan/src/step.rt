use crate::FileName;
use io_vector::Piece;
use port_model::Reason;

/// A step of a process, which goes by its place in the order of declaration, from 0.
#[derive(Drop)]
pub struct Step {
    pub line: u32,
    pub process: u32,
    pub act: Act,
}

/// What a step does. Processes and ports go by their places in the order of declaration, from 0. Data may be longer than a port takes.
#[derive(Drop)]
pub enum Act {
    /// Sends a command, as `port_command/3` of module erlang with the options `force` and `nosuspend`.
    Command {
        port: u32,
        bytes: Piece,
        force: bool,
        nosuspend: bool,
    },
    /// Sends a command for each piece of so many bytes of a file, the last one shorter.
    File {
        port: u32,
        size: u32,
        file: FileName,
        force: bool,
        nosuspend: bool,
    },
    /// Sends a command as a message to the port, as `Port ! {Owner, {command, Data}}`.
    Send {
        port: u32,
        bytes: Piece,
    },
    /// Controls the driver, and waits for its answer.
    Control {
        port: u32,
        op: u32,
        bytes: Piece,
    },
    /// Calls the driver with the external form of a term, and waits for its answer.
    Call {
        port: u32,
        op: u32,
        bytes: Piece,
    },
    /// Asks a port to close, and waits for its answer.
    Close(u32),
    /// Makes another process the owner, and waits for the answer.
    Connect {
        port: u32,
        to: u32,
    },
    /// Asks a port to close by a message to it.
    SendClose(u32),
    /// Makes another process the owner by a message to the port.
    SendConnect {
        port: u32,
        to: u32,
    },
    Link(u32),
    Unlink(u32),
    /// Begins a monitor, whose number counts those that the process began before, whatever their ports, from 0.
    Monitor {
        port: u32,
        number: u64,
    },
    /// Ends the monitor of this number.
    Demonitor {
        port: u32,
        number: u64,
    },
    /// Sends a port an exit signal.
    Exit {
        port: u32,
        reason: Reason,
    },
    /// Waits until so many data messages of the port have come in all.
    Expect {
        port: u32,
        count: u64,
    },
    /// Waits until so many data bytes of the port have come in all.
    Bytes {
        port: u32,
        count: u64,
    },
    /// Ends the process.
    Die(Reason),
}
