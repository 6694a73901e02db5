use crate::Dir;
use port_signal::{Flag, Piece, Reason};

/// What a driver's callback did through its context, after the `driver_` functions of the Erlang/OTP manual of
/// erl_driver. Events are numbers; a status is that of a program which ended.
#[derive(Drop)]
pub enum Effect {
    /// Data for the port's owner, as by `driver_output`.
    Message {
        flag: Flag,
        bytes: Piece,
    },
    /// The owner is told that the program's output has ended, as by the option `eof` of open_port.
    Eof,
    /// The owner is told the program's status, as by the option `exit_status` of open_port.
    Status(i32),
    /// Whether the port takes no commands from now on, as by `set_busy_port`.
    Busy(bool),
    /// Whether the driver is called when this event is ready in this direction, as by `driver_select`.
    Select {
        event: u32,
        dir: Dir,
        on: bool,
    },
    /// The driver gives this event up, as by `driver_select` with `ERL_DRV_USE` and `on` 0.
    Unuse(u32),
    /// A job for a worker, as by `driver_async`. Jobs of a port are numbered from 0; those of one key are done in order.
    Async {
        number: u64,
        key: u32,
        code: u8,
        input: Piece,
    },
    /// The driver is told of the end of this process, as by `driver_monitor_process`.
    Watch(u32),
    /// The bytes that answer a control or a call.
    Reply(Piece),
    /// A control or a call that isn't served.
    ReplyBadarg,
    /// The port fails and closes for this reason, as by `driver_failure_atom`.
    Fail(Reason),
}
