//! Busy ports: suspended senders, commands that aren't to suspend, and forced ones.
use crate::acts::PortAct;
use crate::rig::{PortCase, Wanted, usual_shows, valve_shows};
use process_end::How;
use sample_drivers::Valve;
use std::test::Fail;

/// A command to a busy port that is freed later.
const SUSPENDED_SENDER: PortCase = PortCase {
    acts: &[
        PortAct::Control(1, 1),
        PortAct::Turn(64),
        PortAct::Command(0, How::Plain, b"x"),
        PortAct::Turn(64),
        PortAct::Control(1, 2),
        PortAct::Turn(64),
        PortAct::Resume(0),
        PortAct::Mail(0),
    ],
    wanted: &[
        Wanted::Rows(
            "h p1 0 control 1 - ; ; busy 1, reply -\n\
             m busy\n\
             s p0 0\n\
             h p1 1 control 2 - ; ; busy 0, reply -\n\
             m free\n\
             r p0 0 1\n\
             h p0 0 command s 78 ; ; data plain 78\n",
        ),
        Wanted::Acts(
            "p1 put 0\nidle\np0 suspended\nidle\np1 put 1\nidle\np0 goes on\np0 data 78\n",
        ),
        Wanted::Receipts(
            "p0 suspended seq 0 stat 5 msgq 1\n\
             p0 accepted seq 1 stat 8\n\
             p1 accepted seq 0 stat 0\n\
             p1 accepted seq 1 stat 5\n\
             p1 accepted seq 2 stat 8\n\
             p2 accepted seq 0 stat 8\n",
        ),
    ],
};

#[test]
fn a_busy_port_suspends_a_sender_until_it_is_free(rt: HostRuntime) -> Result<(), Fail> {
    valve_shows(&rt, rt.alloc(), &SUSPENDED_SENDER)
}

/// A control behind a command to a busy port.
const WAITING_CONTROL: PortCase = PortCase {
    acts: &[
        PortAct::Control(1, 1),
        PortAct::Command(0, How::Plain, b"x"),
        PortAct::Control(0, 1),
        PortAct::Control(1, 2),
        PortAct::Turn(64),
    ],
    wanted: &[Wanted::Rows(
        "h p1 0 control 1 - ; ; busy 1, reply -\n\
             m busy\n\
             h p1 1 control 2 - ; ; busy 0, reply -\n\
             m free\n\
             h p0 0 command - 78 ; ; data plain 78\n\
             h p0 1 control 1 - ; ; busy 1, reply -\n\
             m busy\n",
    )],
};

#[test]
fn a_control_waits_behind_the_command_of_its_sender(rt: HostRuntime) -> Result<(), Fail> {
    valve_shows(&rt, rt.alloc(), &WAITING_CONTROL)
}

/// A command that is not to suspend, to a busy port and to a free one.
const DROPPED_COMMAND: PortCase = PortCase {
    acts: &[
        PortAct::Control(1, 1),
        PortAct::Turn(64),
        PortAct::Look(0),
        PortAct::Command(0, How::NoSuspend, b"x"),
        PortAct::Control(1, 2),
        PortAct::Turn(64),
        PortAct::Look(0),
        PortAct::Command(0, How::NoSuspend, b"x"),
        PortAct::Turn(64),
    ],
    wanted: &[
        Wanted::Acts(
            "p1 put 0\nidle\np0 stat 5\np0 dropped stat 5\np1 put 1\nidle\np0 stat 8\np0 accepted 0\nidle\n",
        ),
        Wanted::Rows(
            "h p1 0 control 1 - ; ; busy 1, reply -\n\
             m busy\n\
             h p1 1 control 2 - ; ; busy 0, reply -\n\
             m free\n\
             h p0 0 command - 78 ; ; data plain 78\n",
        ),
    ],
};

#[test]
fn a_busy_port_drops_a_command_that_is_not_to_suspend(rt: HostRuntime) -> Result<(), Fail> {
    valve_shows(&rt, rt.alloc(), &DROPPED_COMMAND)
}

/// A forced command to a free valve and to a busy one.
const REFUSED_FORCE: PortCase = PortCase {
    acts: &[
        PortAct::Command(0, How::Force, b"x"),
        PortAct::Control(1, 1),
        PortAct::Turn(64),
        PortAct::Command(0, How::Force, b"x"),
        PortAct::Turn(64),
    ],
    wanted: &[
        Wanted::Acts("p0 refused force\np1 put 0\nidle\np0 refused force\nidle\n"),
        Wanted::Rows("h p1 0 control 1 - ; ; busy 1, reply -\nm busy\n"),
    ],
};

#[test]
fn a_valve_refuses_force_busy_or_not(rt: HostRuntime) -> Result<(), Fail> {
    valve_shows(&rt, rt.alloc(), &REFUSED_FORCE)
}

/// A forced command to a busy soft valve.
const SOFT_FORCE: PortCase = PortCase {
    acts: &[
        PortAct::Control(1, 1),
        PortAct::Turn(64),
        PortAct::Command(0, How::Force, b"x"),
        PortAct::Turn(64),
        PortAct::Control(1, 2),
        PortAct::Turn(64),
    ],
    wanted: &[
        Wanted::Acts("p1 put 0\nidle\np0 accepted 0\nidle\np1 put 1\nidle\n"),
        Wanted::Rows(
            "h p1 0 control 1 - ; ; busy 1, reply -\n\
             m busy\n\
             h p0 0 command f 78 ; ; data plain 78\n\
             h p1 1 control 2 - ; ; busy 0, reply -\n\
             m free\n",
        ),
    ],
};

#[test]
fn a_soft_valve_handles_force_while_it_is_busy(rt: HostRuntime) -> Result<(), Fail> {
    usual_shows(&rt, rt.alloc(), Valve::soft(), &SOFT_FORCE)
}
