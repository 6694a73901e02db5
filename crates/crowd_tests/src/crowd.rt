// Four senders and a taker in threads.
use crate::rig::{CrowdSide, CrowdSides, PERIOD, mailed_process, open};
use crate::sending::{COMMANDS, MOST, Member, send_all};
use crate::taking::{Taker, take_all};
use port_model::Mail;
use port_words::busy::{QueueLimits, msgq_is_busy};
use process_end::{Outcome, ProcEnd, Receipt};
use std::alloc::Global;
use std::sync::Wait;
use std::thread;
use std::thread::{Threads, join};
use task_queue::SendEnd;

const HIGH: u32 = 8_192;

type Ends = Option<Vec<Option<ProcEnd>>>;

/// Each process sends in a thread of its own.
fn send_in_threads<R: Threads + Wait + Sync>(rt: &R, alloc: Global, members: Vec<Member>) -> Ends {
    thread::map_vec(rt, members, &|member| send_all(rt, alloc, member)).ok()
}

/// The processes send, and one thread takes.
fn run<R: Threads + Wait + Sync>(
    rt: &R,
    alloc: Global,
    taker: Taker,
    members: Vec<Member>,
) -> (Option<Taker>, Ends) {
    join(
        rt,
        || take_all(rt, taker, 4),
        || send_in_threads(rt, alloc, members),
    )
}

/// The sides of four processes, by their numbers.
fn four_sides(alloc: Global, sides: CrowdSides) -> Option<Vec<CrowdSide>> {
    let mut sides = sides;
    let mut list = Vec::new(alloc);
    for _ in 0..3u8 {
        list.push(sides.split()?).ok()?;
    }
    list.insert(0, sides.into_first()?).ok()?;
    Some(list)
}

/// The processes of these sides, and the ends that put mail for them.
fn members_of(alloc: Global, sides: Vec<CrowdSide>) -> Option<(Vec<Member>, Vec<SendEnd<Mail>>)> {
    let mut members = Vec::new(alloc);
    let mut mails = Vec::new(alloc);
    for side in sides {
        let (proc, mail) = mailed_process(alloc, side).ok()?;
        members.push(Member::new(proc)).ok()?;
        mails.push(mail).ok()?;
    }
    Some((members, mails))
}

/// A port with limits, and four processes that send to it.
fn crowd(alloc: Global) -> Option<(Taker, Vec<Member>)> {
    let limits = QueueLimits {
        on: true,
        low: 4_096,
        high: HIGH,
    };
    let (sides, port) = open(alloc, limits, 4).ok()?;
    let (members, mails) = members_of(alloc, four_sides(alloc, sides)?)?;
    Some((Taker::new(alloc, port, mails), members))
}

/// Whether the word of a receipt has bytes within the bound: below the high limit in an even period, and else with a command of each sender on top.
fn is_within(receipt: &Receipt) -> bool {
    match receipt.msgq {
        Some(word) if msgq_is_busy(word) => word % PERIOD < (HIGH + 4 * MOST) as u64,
        Some(word) => word % PERIOD < HIGH as u64,
        None => true,
    }
}

/// Whether a process made all its calls, with words within the bound.
fn is_whole(receipts: &[Receipt]) -> bool {
    receipts.len() == COMMANDS as usize + 1 && receipts.iter().all(is_within)
}

/// Whether one of the calls suspended its process.
fn was_suspended(receipts: &[Receipt]) -> bool {
    receipts
        .iter()
        .any(|receipt| receipt.outcome == Outcome::Suspended)
}

/// Whether a call suspended a process that ended, where it made all its calls.
fn suspension_of(end: &Option<ProcEnd>) -> Option<bool> {
    let Some(end) = end else {
        return None;
    };
    let receipts = end.receipts.as_slice();
    is_whole(receipts).then_some(was_suspended(receipts))
}

/// How many processes ended, and whether a call suspended one of them, where each made all its calls.
fn ended(ends: &[Option<ProcEnd>]) -> Option<(usize, bool)> {
    let mut suspended = false;
    for end in ends {
        suspended |= suspension_of(end)?;
    }
    Some((ends.len(), suspended))
}

/// How many bytes are left in the message queue.
fn bytes_left(taker: Taker) -> u64 {
    let mut taker = taker;
    taker.port.seat.look_msgq() % PERIOD
}

/// What came of the processes and of the taker, where there was memory for them.
#[derive(Clone, Copy, PartialEq, Eq)]
struct CrowdResult {
    ended: Option<(usize, bool)>,
    bytes_left: Option<u64>,
}

/// What comes of a crowd.
fn run_crowd<R: Threads + Wait + Sync>(rt: &R, alloc: Global) -> Option<CrowdResult> {
    let (taker, members) = crowd(alloc)?;
    let (taker, ends) = run(rt, alloc, taker, members);
    let bytes_left = taker.map(bytes_left);
    let ended = match &ends {
        Some(ends) => ended(ends.as_slice()),
        None => None,
    };
    Some(CrowdResult { ended, bytes_left })
}

const WANTED: CrowdResult = CrowdResult {
    ended: Some((4, true)),
    bytes_left: Some(0),
};

#[test]
fn every_suspended_one_of_four_senders_comes_back(rt: HostRuntime) {
    assert!(rt; run_crowd(&rt, rt.alloc()) == Some(WANTED));
}
