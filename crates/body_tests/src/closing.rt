//! What closes a port, and what comes after.
use crate::acts::PortAct;
use crate::rig::{PortCase, Wanted, echo_shows, usual_shows, valve_shows};
use process_end::How;
use sample_drivers::Store;
use std::test::Fail;

/// A control behind a close.
const LATE_CONTROL: PortCase = PortCase {
    acts: &[
        PortAct::Close(1),
        PortAct::Control(0, 1),
        PortAct::Turn(64),
        PortAct::Look(0),
        PortAct::Mail(0),
        PortAct::Mail(1),
        PortAct::Control(0, 1),
    ],
    wanted: &[
        Wanted::Rows("h p1 0 close ; ;\nm closed\nl p0 0 control 1 -\n"),
        Wanted::Acts(
            "p1 put 0\n\
             p0 put 0\n\
             finished\n\
             p0 stat 6\n\
             p0 exit normal\n\
             p0 reply 0 badarg\n\
             p1 reply 0 true\n\
             p0 refused closed 1\n",
        ),
        Wanted::Stopped,
    ],
};

#[test]
fn a_control_behind_a_close_is_late(rt: HostRuntime) -> Result<(), Fail> {
    echo_shows(&rt, rt.alloc(), &LATE_CONTROL)
}

/// A close while two processes wait.
const CLOSED_WAITERS: PortCase = PortCase {
    acts: &[
        PortAct::Control(1, 1),
        PortAct::Turn(64),
        PortAct::Command(0, How::Plain, b"x"),
        PortAct::Command(2, How::Plain, b"y"),
        PortAct::Close(1),
        PortAct::Turn(64),
        PortAct::Resume(0),
        PortAct::Resume(0),
        PortAct::Resume(2),
    ],
    wanted: &[
        Wanted::Rows(
            "h p1 0 control 1 - ; ; busy 1, reply -\n\
             m busy\n\
             s p0 0\n\
             s p2 0\n\
             h p1 1 close ; ;\n\
             m closed\n\
             r p0 0 2\n\
             r p2 0 2\n\
             l p0 0 command s 78\n\
             l p2 0 command s 79\n",
        ),
        Wanted::Acts(
            "p1 put 0\nidle\np0 suspended\np2 suspended\np1 put 1\nfinished\np0 exit normal\np0 goes on\np2 goes on\n",
        ),
    ],
};

#[test]
fn a_close_resumes_those_who_wait_and_finds_their_commands_late(
    rt: HostRuntime,
) -> Result<(), Fail> {
    valve_shows(&rt, rt.alloc(), &CLOSED_WAITERS)
}

/// A close of a port whose driver has a queue.
const FLUSHED_QUEUE: PortCase = PortCase {
    acts: &[
        PortAct::Command(0, How::Plain, b"ab"),
        PortAct::Close(0),
        PortAct::Turn(64),
        PortAct::Mail(0),
    ],
    wanted: &[
        Wanted::Rows("h p0 0 command - 6162 ; ;\nh p0 1 close ; ; data plain 6162\nm closed\n"),
        Wanted::Acts(
            "p0 accepted 0\np0 put 1\nfinished\np0 data 6162\np0 reply 1 true\np0 exit normal\n",
        ),
        Wanted::Stopped,
    ],
};

#[test]
fn what_a_driver_has_queued_is_flushed_by_the_row_of_a_close(rt: HostRuntime) -> Result<(), Fail> {
    usual_shows(&rt, rt.alloc(), Store::new(), &FLUSHED_QUEUE)
}
