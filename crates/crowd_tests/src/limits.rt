// What one process finds at the limits of its calls.
use crate::rig::{mailed_process, open, payload, piece};
use crate::sending::Member;
use port_model::Reason;
use port_words::busy::QueueLimits;
use process_end::{Ask, Commanded, How, Outcome, Receipt, SendRefusal};
use std::alloc::Global;
use std::sync::Wait;
use std::test::Fail;

/// A process alone with a port whose message queue has no limits.
fn alone(alloc: Global) -> Option<Member> {
    let limits = QueueLimits {
        on: false,
        low: 0,
        high: 0,
    };
    let (sides, _) = open(alloc, limits, 1).ok()?;
    let (proc, _) = mailed_process(alloc, sides.into_first()?).ok()?;
    Some(Member::new(proc))
}

/// Sends a control of so many bytes.
fn control<R: Wait>(
    rt: &R,
    alloc: Global,
    member: &mut Member,
    bytes: usize,
) -> Result<u64, SendRefusal> {
    let Some(bytes) = piece(alloc, bytes) else {
        return Err(SendRefusal::NoMemory);
    };
    member.proc.signal(rt, 1, 0, Ask::Control { op: 0, bytes })
}

const TOO_LONG: Result<u64, SendRefusal> = Err(SendRefusal::TooLong { len: 262_144 });

#[test]
fn a_control_has_at_most_262_143_bytes(rt: HostRuntime) -> Result<(), Fail> {
    let mut member = alone(rt.alloc()).ok_or("no memory")?;
    assert!(rt; control(&rt, rt.alloc(), &mut member, 262_144) == TOO_LONG);
    assert!(rt; control(&rt, rt.alloc(), &mut member, 262_143) == Ok(0));
    Ok(())
}

/// Sends a command of 262,143 bytes that is not to suspend. The process, where it is accepted.
fn send_most<R: Wait>(rt: &R, alloc: Global, member: Member, line: u32) -> Option<Member> {
    let payload = payload(alloc, 262_143)?;
    match member.proc.command(rt, line, 0, payload, How::NoSuspend) {
        Commanded::Accepted(proc, _) => Some(Member::new(proc)),
        _ => None,
    }
}

/// The second receipt of a process, which ends now.
fn second<R: Wait>(rt: &R, member: Member) -> Option<Receipt> {
    match &member.proc.exit_process(rt, Reason::normal()) {
        Ok(end) => end.receipts.as_slice().get(1).copied(),
        Err(_) => None,
    }
}

/// The second receipt of a process whose two commands are accepted.
fn second_of_two<R: Wait>(rt: &R, alloc: Global) -> Option<Receipt> {
    let member = send_most(rt, alloc, alone(alloc)?, 1)?;
    let member = send_most(rt, alloc, member, 2)?;
    second(rt, member)
}

const SECOND: Receipt = Receipt {
    line: 2,
    port: 0,
    seq: Some(1),
    stat: Some(0),
    msgq: Some(524_286),
    outcome: Outcome::Accepted,
};

#[test]
fn a_queue_without_limits_adds_the_bytes_of_all_commands(rt: HostRuntime) {
    assert!(rt; second_of_two(&rt, rt.alloc()) == Some(SECOND));
}
