use crate::rig::{TakenTask, no_limits, small_limits};
use crate::sender::{PERIOD, PortSender, SendAnswer, set_up, set_up_busy};
use crate::steps::{ProcessStep, follow};
use process_end::{How, Outcome, Receipt, SendRefusal, Shown};
use std::alloc::Global;
use std::sync::Wait;

/// A sender whose command was dropped, since its port was busy, and whose port is free again.
fn freed<R: Wait>(rt: &R, alloc: Global) -> Option<PortSender> {
    let mut sender = set_up_busy(alloc, no_limits(), false)?;
    let is_freed = sender.send(rt, 1, 1, How::NoSuspend) == SendAnswer::Dropped(Shown::Stat(5))
        && sender.port.marks_free();
    is_freed.then_some(sender)
}

const FREED: [ProcessStep; 3] = [
    ProcessStep::Send(2, 1, How::NoSuspend, SendAnswer::Accepted(0)),
    ProcessStep::Look(8),
    ProcessStep::FirstReceipt(Receipt {
        line: 1,
        port: 0,
        seq: None,
        stat: Some(5),
        msgq: None,
        outcome: Outcome::Dropped,
    }),
];

#[test]
fn without_suspension_a_busy_port_drops(rt: HostRuntime) {
    let sender = freed(&rt, rt.alloc());
    follow(&rt, sender, &FREED);
}

const BUSY_QUEUE: [ProcessStep; 6] = [
    ProcessStep::Send(1, 4, How::Plain, SendAnswer::Accepted(0)),
    ProcessStep::Send(2, 4, How::Force, SendAnswer::Accepted(1)),
    ProcessStep::Take(Some(TakenTask {
        seq: 0,
        suspends: false,
        is_end: false,
        msgq: Some(PERIOD + 4),
    })),
    ProcessStep::Send(
        3,
        1,
        How::NoSuspend,
        SendAnswer::Dropped(Shown::Msgq(1_099_511_627_780)),
    ),
    ProcessStep::Take(Some(TakenTask {
        seq: 1,
        suspends: false,
        is_end: false,
        msgq: Some(2 * PERIOD),
    })),
    ProcessStep::Send(4, 1, How::NoSuspend, SendAnswer::Accepted(2)),
];

#[test]
fn without_suspension_a_busy_queue_drops(rt: HostRuntime) {
    let sender = set_up(rt.alloc(), small_limits(), true);
    follow(&rt, sender, &BUSY_QUEUE);
}

const NOT_SUPPORTED: SendAnswer = SendAnswer::Refused(SendRefusal::NotSupported);

/// A sender whose forced command was refused, and whose port is busy since then.
fn refused_and_busy<R: Wait>(rt: &R, alloc: Global) -> Option<PortSender> {
    let mut sender = set_up(alloc, no_limits(), false)?;
    let is_busy = sender.send(rt, 1, 1, How::Force) == NOT_SUPPORTED && sender.port.marks_busy();
    is_busy.then_some(sender)
}

const FORCED_TO_BUSY: [ProcessStep; 1] = [ProcessStep::Send(
    2,
    1,
    How::ForceNoSuspend,
    NOT_SUPPORTED,
)];

#[test]
fn a_driver_that_takes_no_force_refuses_it_busy_or_not(rt: HostRuntime) {
    let sender = refused_and_busy(&rt, rt.alloc());
    follow(&rt, sender, &FORCED_TO_BUSY);
}

const FORCED: [ProcessStep; 2] = [
    ProcessStep::Send(1, 1, How::Force, SendAnswer::Accepted(0)),
    ProcessStep::FirstReceipt(Receipt {
        line: 1,
        port: 0,
        seq: Some(0),
        stat: Some(5),
        msgq: Some(1),
        outcome: Outcome::Accepted,
    }),
];

#[test]
fn a_busy_port_takes_force_where_its_driver_allows_it(rt: HostRuntime) {
    let sender = set_up_busy(rt.alloc(), no_limits(), true);
    follow(&rt, sender, &FORCED);
}

/// A sender whose port was busy and is closed.
fn closed(alloc: Global) -> Option<PortSender> {
    let mut sender = set_up_busy(alloc, no_limits(), false)?;
    let is_closed = sender.port.marks_closed(11);
    is_closed.then_some(sender)
}

const CLOSED: [ProcessStep; 3] = [
    ProcessStep::Send(
        1,
        1,
        How::Plain,
        SendAnswer::Refused(SendRefusal::Closed { mark: 2 }),
    ),
    ProcessStep::FirstReceipt(Receipt {
        line: 1,
        port: 0,
        seq: None,
        stat: Some(11),
        msgq: None,
        outcome: Outcome::Closed,
    }),
    ProcessStep::Take(None),
];

#[test]
fn a_closed_port_refuses_and_tells_how_many_marks_it_made(rt: HostRuntime) {
    follow(&rt, closed(rt.alloc()), &CLOSED);
}

const REFUSED: [[ProcessStep; 2]; 2] = [
    [
        ProcessStep::Send(1, 1, How::Force, NOT_SUPPORTED),
        ProcessStep::FirstReceipt(Receipt {
            line: 1,
            port: 0,
            seq: None,
            stat: None,
            msgq: None,
            outcome: Outcome::NotSupported,
        }),
    ],
    [
        ProcessStep::Send(
            1,
            262_144,
            How::Plain,
            SendAnswer::Refused(SendRefusal::TooLong { len: 262_144 }),
        ),
        ProcessStep::FirstReceipt(Receipt {
            line: 1,
            port: 0,
            seq: None,
            stat: None,
            msgq: None,
            outcome: Outcome::TooLong,
        }),
    ],
];

#[test]
fn a_refused_command_has_a_receipt(rt: HostRuntime) {
    for steps in &REFUSED {
        let sender = set_up(rt.alloc(), no_limits(), false);
        follow(&rt, sender, steps);
    }
}
