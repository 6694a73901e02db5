use crate::rig::no_limits;
use crate::sender::{SendAnswer, set_up};
use crate::steps::{ProcessStep, follow};
use process_end::{How, Outcome, Receipt, SendRefusal};

const LONGEST: [ProcessStep; 2] = [
    ProcessStep::Send(
        1,
        262_144,
        How::Plain,
        SendAnswer::Refused(SendRefusal::TooLong { len: 262_144 }),
    ),
    ProcessStep::Send(2, 262_143, How::Plain, SendAnswer::Accepted(0)),
];

#[test]
fn a_signal_has_at_most_262_143_bytes(rt: HostRuntime) {
    let sender = set_up(rt.alloc(), no_limits(), false);
    follow(&rt, sender, &LONGEST);
}

const UNLIMITED: [ProcessStep; 3] = [
    ProcessStep::Send(1, 262_143, How::Plain, SendAnswer::Accepted(0)),
    ProcessStep::Send(2, 262_143, How::NoSuspend, SendAnswer::Accepted(1)),
    ProcessStep::FirstReceipt(Receipt {
        line: 1,
        port: 0,
        seq: Some(0),
        stat: Some(0),
        msgq: Some(262_143),
        outcome: Outcome::Accepted,
    }),
];

#[test]
fn a_queue_without_limits_is_never_busy(rt: HostRuntime) {
    let sender = set_up(rt.alloc(), no_limits(), false);
    follow(&rt, sender, &UNLIMITED);
}

const SENT_OUT: SendAnswer = SendAnswer::Refused(SendRefusal::SentOut);

const CALLS: [ProcessStep; 4] = [
    ProcessStep::Link(131_072, SendAnswer::Accepted(131_071)),
    ProcessStep::Link(1, SENT_OUT),
    ProcessStep::Send(3, 0, How::Plain, SENT_OUT),
    ProcessStep::ReceiptCount(131_075),
];

#[test]
fn a_process_makes_131_072_calls(rt: HostRuntime) {
    let sender = set_up(rt.alloc(), no_limits(), false);
    follow(&rt, sender, &CALLS);
}
