//! The words of a message queue, by what its senders and its port do.
use crate::acts::PortAct;
use crate::rig::{PortCase, QueueChoice, Wanted, limited, shows};
use crate::text::times;
use process_end::How;
use sample_drivers::Echo;
use std::alloc::{AllocError, Global};
use std::process::Abort;
use std::sync::Wait;
use std::test::Fail;

/// The receipts of the calls at a port with a small queue.
const LIMITED_RECEIPTS: &str = "p0 accepted seq 0 stat 0 msgq 4\n\
    p0 dropped stat 0 msgq 1099511627780\n\
    p0 accepted seq 1 stat 0\n\
    p1 accepted seq 0 stat 0 msgq 5\n\
    p1 accepted seq 1 stat 0\n\
    p2 suspended seq 0 stat 0 msgq 1099511627784\n\
    p2 accepted seq 1 stat 0\n";

/// Commands to a port with a small queue.
const SMALL_QUEUE: PortCase = PortCase {
    acts: &[
        PortAct::Command(0, How::Plain, b"aaaa"),
        PortAct::Command(1, How::Plain, b"b"),
        PortAct::Command(2, How::Plain, b"ccc"),
        PortAct::Turn(1),
        PortAct::Command(0, How::NoSuspend, b"x"),
        PortAct::Turn(1),
        PortAct::Turn(64),
        PortAct::Resume(2),
    ],
    wanted: &[
        Wanted::Acts(
            "p0 accepted 0\n\
             p1 accepted 0\n\
             p2 suspended\n\
             more\n\
             p0 dropped msgq 1099511627780\n\
             more\n\
             idle\n\
             p2 goes on\n",
        ),
        Wanted::Rows(
            "h p0 0 command - 61616161 ; ; data plain 61616161\n\
             h p1 0 command - 62 ; ; data plain 62\n\
             s p2 0\n\
             r p2 0 2199023255555\n\
             h p2 0 command s 636363 ; ; data plain 636363\n",
        ),
        Wanted::Receipts(LIMITED_RECEIPTS),
    ],
};

/// Asserts what comes of the acts on a port that echoes and has a small queue.
fn small_shows<R: Abort + Wait>(rt: &R, alloc: Global, case: &PortCase) -> Result<(), Fail> {
    let options = limited(QueueChoice::Small);
    shows(rt, alloc, Echo::new(), options, case.acts, case.wanted)
}

#[test]
fn a_queue_is_busy_from_its_high_limit_and_free_below_its_low_one(
    rt: HostRuntime,
) -> Result<(), Fail> {
    small_shows(&rt, rt.alloc(), &SMALL_QUEUE)
}

/// The rows of a command of these bytes that suspended its sender.
fn suspended_rows(alloc: Global, data: &str) -> Result<String, AllocError> {
    format!(in alloc;
        "s p1 0\nh p1 0 command s {data} ; ; data plain {data}\nr p1 0 2199023255552\n"
    )
}

/// The rows of a command of so many bytes that suspended its sender.
fn long_rows(alloc: Global, count: usize) -> Result<String, AllocError> {
    let data = times(alloc, "61", count)?;
    suspended_rows(alloc, data.as_str())
}

/// A command that is too long by a byte, and the longest one.
const LONGEST_COMMAND: [PortAct; 4] = [
    PortAct::Bulk(1, How::Plain, 262_144),
    PortAct::Bulk(1, How::Plain, 262_143),
    PortAct::Turn(64),
    PortAct::Resume(1),
];

/// Asserts what comes of those commands, where the port has these rows.
fn longest_shows<R: Abort + Wait>(rt: &R, alloc: Global, rows: &str) -> Result<(), Fail> {
    let wanted = [
        Wanted::Acts("p1 refused length 262144\np1 suspended\nidle\np1 goes on\n"),
        Wanted::LongRows(rows),
        Wanted::SomeReceipts("p1 too long\np1 suspended seq 0 stat 0 msgq 1099511889919\n"),
    ];
    let options = limited(QueueChoice::Usual);
    shows(rt, alloc, Echo::new(), options, &LONGEST_COMMAND, &wanted)
}

#[test]
fn a_command_of_262_143_bytes_suspends_its_sender_until_it_is_handled(
    rt: HostRuntime,
) -> Result<(), Fail> {
    let rows = long_rows(rt.alloc(), 262_143)?;
    longest_shows(&rt, rt.alloc(), rows.as_str())
}
