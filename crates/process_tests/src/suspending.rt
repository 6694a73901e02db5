use crate::rig::{TakenTask, no_limits, small_limits};
use crate::sender::{PERIOD, SendAnswer, Why, set_up, set_up_busy};
use crate::steps::{ProcessStep, StopStep, follow};
use process_end::{How, Outcome, Receipt};
use suspend_list::StopNote;

const OWN_RESUME: [ProcessStep; 8] = [
    ProcessStep::Send(3, 1, How::Plain, SendAnswer::Suspended),
    ProcessStep::Stopped(StopStep::Note(StopNote {
        port: 0,
        seq: 0,
        msgq: 1,
    })),
    ProcessStep::Stopped(StopStep::Resume(1, 0)),
    ProcessStep::Stopped(StopStep::Resume(0, 0)),
    ProcessStep::Stopped(StopStep::Wait(Why::OtherResume(1))),
    ProcessStep::Stopped(StopStep::GoOn),
    ProcessStep::FirstReceipt(Receipt {
        line: 3,
        port: 0,
        seq: Some(0),
        stat: Some(5),
        msgq: Some(1),
        outcome: Outcome::Suspended,
    }),
    ProcessStep::Take(Some(TakenTask {
        seq: 0,
        suspends: true,
        is_end: false,
        msgq: Some(0),
    })),
];

#[test]
fn a_busy_port_suspends_a_sender_until_its_own_resume(rt: HostRuntime) {
    let sender = set_up_busy(rt.alloc(), no_limits(), false);
    follow(&rt, sender, &OWN_RESUME);
}

const END_OF_PERIOD: [ProcessStep; 8] = [
    ProcessStep::Send(1, 8, How::Owner, SendAnswer::Suspended),
    ProcessStep::Stopped(StopStep::Wait(Why::Empty)),
    ProcessStep::Stopped(StopStep::Resume(0, PERIOD + 8)),
    ProcessStep::Stopped(StopStep::Wait(Why::SamePeriod(PERIOD + 8))),
    ProcessStep::Stopped(StopStep::Resume(0, PERIOD + 8)),
    ProcessStep::Take(Some(TakenTask {
        seq: 0,
        suspends: true,
        is_end: false,
        msgq: Some(2 * PERIOD),
    })),
    ProcessStep::Stopped(StopStep::GoOn),
    ProcessStep::Stopped(StopStep::TakeResume(0)),
];

#[test]
fn a_resumed_sender_waits_for_the_end_of_its_busy_period(rt: HostRuntime) {
    let sender = set_up(rt.alloc(), small_limits(), false);
    follow(&rt, sender, &END_OF_PERIOD);
}
