ghost use Rattle.std.specs.Prelude.{◌≡◌};
ghost use Rattle.port_model.specs.Signals.{data_size, is_command};

use crate::{Dir, Reason};
use port_signal::{IoVec, Piece};

/// Who put a task into a port's queue. A process goes by its place in the order of declaration, a worker by its number, both
/// from 0.
#[derive(Clone, Copy, Debug, PartialEq, Eq)]
pub enum Sender {
    Process(u32),
    /// Who waits for events.
    Poller,
    /// Who does jobs.
    Worker(u32),
    /// Who counts ticks.
    Timer,
}

/// A signal to a port, after the signals of the Erlang Reference Manual's chapter Ports and Port Drivers, and what the poller and
/// the workers tell it.
#[derive(Drop)]
pub enum Signal {
    /// Data for the driver, as by `port_command`.
    Command(IoVec),
    /// Data for the driver, as by `Port ! {Owner, {command, Data}}`. From another process than the owner it is a bad signal.
    OwnerCommand(IoVec),
    /// An operation of the driver on some bytes, as by `port_control`. It is answered.
    Control { op: u32, bytes: Piece },
    /// An operation of the driver on the external form of a term, as by `port_call`. It is answered.
    Call { op: u32, bytes: Piece },
    /// Asks the port to close, as by `port_close`. It is answered.
    Close,
    /// Asks the port to close, as by `Port ! {Owner, close}`. The sender is told when the driver was stopped.
    OwnerClose,
    /// Makes this process the owner, as by `port_connect`. It is answered.
    Connect(u32),
    /// Makes this process the owner, as by `Port ! {Owner, {connect, Process}}`. The sender is told.
    OwnerConnect(u32),
    /// Links the sender to the port, as by `link`.
    Link,
    /// Takes the sender's link away, as by `unlink`.
    Unlink,
    /// Monitors the port under this number, which the sender chose, as by `monitor`.
    Monitor(u64),
    /// Takes the sender's monitor of this number away, as by `demonitor`.
    Demonitor(u64),
    /// An exit signal, as by `exit(Port, Reason)`.
    Exit(Reason),
    /// The sender has ended for this reason.
    Gone(Reason),
    /// The event is ready in this direction: the callbacks `ready_input` and `ready_output`.
    Ready { event: u32, dir: Dir },
    /// The poller waits for this event no more: the callback `stop_select`.
    Dropped(u32),
    /// The job of this number was done, with this output: the callback `ready_async`.
    AsyncDone { number: u64, output: Piece },
}

impl Signal {
    /// Whether it is a command, in either form.
    pub fn is_command(&self) -> bool
        ensures { result ≡ is_command self.now }
    {
        matches!(self, Signal::Command(_) | Signal::OwnerCommand(_))
    }

    /// How many bytes of data it carries to a driver: those of a command, a control or a call.
    pub fn size(&self) -> u64
        ensures { result ≡ data_size self.now }
    {
        match self {
            Signal::Command(payload) | Signal::OwnerCommand(payload) => payload.size(),
            Signal::Control { bytes, .. } | Signal::Call { bytes, .. } => bytes.len() as u64,
            _ => 0,
        }
    }
}
