//! Owners, links and monitors, and the ends of processes.
use crate::acts::PortAct;
use crate::rig::{PortCase, Wanted, echo_shows, usual_shows};
use process_end::How;
use sample_drivers::Tally;
use std::test::Fail;

/// The ends of the old owner and of the new one.
const LAST_OWNER: PortCase = PortCase {
    acts: &[
        PortAct::Connect(0, 1),
        PortAct::Turn(64),
        PortAct::End(0, b"normal"),
        PortAct::Turn(64),
        PortAct::Look(2),
        PortAct::End(1, b"normal"),
        PortAct::Turn(64),
        PortAct::Look(2),
        PortAct::Mail(0),
        PortAct::Mail(1),
    ],
    wanted: &[
        Wanted::Rows(
            "h p0 0 connect 1 ; ;\nh p0 1 gone normal ; ;\nh p1 0 gone normal ; ;\nm closed\n",
        ),
        Wanted::Acts("p0 put 0\nidle\nidle\np2 stat 0\nfinished\np2 stat 6\np0 reply 0 true\n"),
    ],
};

#[test]
fn a_port_closes_with_the_end_of_its_last_owner(rt: HostRuntime) -> Result<(), Fail> {
    echo_shows(&rt, rt.alloc(), &LAST_OWNER)
}

/// Data and a close behind a new owner.
const NEW_OWNER: PortCase = PortCase {
    acts: &[
        PortAct::OwnerConnect(0, 2),
        PortAct::Command(1, How::Plain, b"x"),
        PortAct::OwnerClose(2),
        PortAct::Turn(64),
        PortAct::Mail(0),
        PortAct::Mail(2),
    ],
    wanted: &[
        Wanted::Rows(
            "h p0 0 ownerconnect 2 ; ;\n\
             h p1 0 command - 78 ; ; data plain 78\n\
             h p2 0 ownerclose ; ;\n\
             m closed\n",
        ),
        Wanted::Acts(
            "p0 put 0\n\
             p1 accepted 0\n\
             p2 put 0\n\
             finished\n\
             p0 connected\n\
             p0 exit normal\n\
             p2 data 78\n\
             p2 exit normal\n\
             p2 closed\n",
        ),
    ],
};

#[test]
fn the_old_owner_stays_linked_and_data_goes_to_the_new_one(rt: HostRuntime) -> Result<(), Fail> {
    echo_shows(&rt, rt.alloc(), &NEW_OWNER)
}

/// Two monitors, of which one is taken away, and one of a closed port.
const MONITORS: PortCase = PortCase {
    acts: &[
        PortAct::Monitor(1, 0),
        PortAct::Monitor(1, 1),
        PortAct::Demonitor(1, 0),
        PortAct::Close(0),
        PortAct::Turn(64),
        PortAct::Mail(1),
        PortAct::Monitor(1, 2),
    ],
    wanted: &[
        Wanted::Rows(
            "h p1 0 monitor 0 ; ;\n\
             h p1 1 monitor 1 ; ;\n\
             h p1 2 demonitor 0 ; ;\n\
             h p0 0 close ; ;\n\
             m closed\n",
        ),
        Wanted::Acts(
            "p1 put 0\np1 put 1\np1 put 2\np0 put 0\nfinished\np1 down 1 normal\np1 refused closed 1\n",
        ),
    ],
};

#[test]
fn a_monitor_tells_the_end_of_a_port_until_it_is_taken_away(rt: HostRuntime) -> Result<(), Fail> {
    echo_shows(&rt, rt.alloc(), &MONITORS)
}

/// A link and a monitor behind a close.
const LATE_TIES: PortCase = PortCase {
    acts: &[
        PortAct::Close(0),
        PortAct::Link(1),
        PortAct::Monitor(2, 7),
        PortAct::Turn(64),
        PortAct::Mail(1),
        PortAct::Mail(2),
    ],
    wanted: &[
        Wanted::Rows("h p0 0 close ; ;\nm closed\nl p1 0 link\nl p2 0 monitor 7\n"),
        Wanted::Acts("p0 put 0\np1 put 0\np2 put 0\nfinished\np1 exit noproc\np2 down 7 noproc\n"),
    ],
};

#[test]
fn a_link_or_a_monitor_of_a_closed_port_is_told(rt: HostRuntime) -> Result<(), Fail> {
    echo_shows(&rt, rt.alloc(), &LATE_TIES)
}

/// Forms of the owner that another uses.
const FOREIGN_FORMS: PortCase = PortCase {
    acts: &[
        PortAct::Command(1, How::Owner, b"x"),
        PortAct::OwnerClose(1),
        PortAct::OwnerConnect(1, 1),
        PortAct::Turn(64),
        PortAct::Mail(0),
        PortAct::Mail(1),
        PortAct::Look(1),
    ],
    wanted: &[
        Wanted::Rows("h p1 0 send - 78 ; ;\nh p1 1 ownerclose ; ;\nh p1 2 ownerconnect 1 ; ;\n"),
        Wanted::Acts(
            "p1 accepted 0\n\
             p1 put 1\n\
             p1 put 2\n\
             idle\n\
             p0 exit badsig\n\
             p0 exit badsig\n\
             p0 exit badsig\n\
             p1 stat 0\n",
        ),
    ],
};

#[test]
fn another_who_uses_a_form_of_the_owner_is_a_bad_signal(rt: HostRuntime) -> Result<(), Fail> {
    echo_shows(&rt, rt.alloc(), &FOREIGN_FORMS)
}

/// A new owner that is gone.
const GONE_OWNER: PortCase = PortCase {
    acts: &[
        PortAct::End(1, b"done"),
        PortAct::Connect(0, 1),
        PortAct::OwnerConnect(0, 1),
        PortAct::Turn(64),
        PortAct::Mail(0),
    ],
    wanted: &[
        Wanted::Rows("h p1 0 gone done ; ;\nh p0 0 connect 1 ; ;\nh p0 1 ownerconnect 1 ; ;\n"),
        Wanted::Acts("p0 put 0\np0 put 1\nidle\np0 reply 0 badarg\np0 exit badsig\n"),
    ],
};

#[test]
fn a_process_that_is_gone_becomes_no_owner(rt: HostRuntime) -> Result<(), Fail> {
    echo_shows(&rt, rt.alloc(), &GONE_OWNER)
}

/// The ends of two linked processes.
const LINKED_ENDS: PortCase = PortCase {
    acts: &[
        PortAct::Link(1),
        PortAct::Link(2),
        PortAct::End(1, b"normal"),
        PortAct::Turn(64),
        PortAct::Look(0),
        PortAct::End(2, b"crash"),
        PortAct::Turn(64),
        PortAct::Mail(0),
        PortAct::Mail(1),
        PortAct::Mail(2),
    ],
    wanted: &[
        Wanted::Rows(
            "h p1 0 link ; ;\n\
             h p2 0 link ; ;\n\
             h p1 1 gone normal ; ;\n\
             h p2 1 gone crash ; ;\n\
             m closed\n",
        ),
        Wanted::Acts("p1 put 0\np2 put 0\nidle\np0 stat 0\nfinished\np0 exit crash\n"),
    ],
};

#[test]
fn a_linked_process_closes_a_port_but_where_it_ends_normally(rt: HostRuntime) -> Result<(), Fail> {
    echo_shows(&rt, rt.alloc(), &LINKED_ENDS)
}

/// Exit signals of a linked process and of another.
const EXIT_SIGNALS: PortCase = PortCase {
    acts: &[
        PortAct::Link(1),
        PortAct::Exit(1, b"normal"),
        PortAct::Unlink(1),
        PortAct::Exit(2, b"stop"),
        PortAct::Turn(64),
        PortAct::Mail(0),
        PortAct::Mail(1),
    ],
    wanted: &[
        Wanted::Rows(
            "h p1 0 link ; ;\n\
             h p1 1 exit normal ; ;\n\
             h p1 2 unlink ; ;\n\
             h p2 0 exit stop ; ;\n\
             m closed\n",
        ),
        Wanted::Acts("p1 put 0\np1 put 1\np1 put 2\np2 put 0\nfinished\np0 exit stop\n"),
    ],
};

#[test]
fn an_exit_signal_closes_a_port_but_a_normal_one_of_another(rt: HostRuntime) -> Result<(), Fail> {
    echo_shows(&rt, rt.alloc(), &EXIT_SIGNALS)
}

/// The ends of a process that is watched and of one that isn't.
const WATCHED_END: PortCase = PortCase {
    acts: &[
        PortAct::Control(1, 2),
        PortAct::End(1, b"normal"),
        PortAct::End(2, b"normal"),
        PortAct::Turn(64),
        PortAct::Mail(0),
    ],
    wanted: &[
        Wanted::Rows(
            "h p1 0 control 2 - ; ; watch 1, reply -\n\
             h p1 1 gone normal ; ; data plain 01\n\
             h p2 0 gone normal ; ;\n",
        ),
        Wanted::Acts("p1 put 0\nidle\np0 data 01\n"),
    ],
};

#[test]
fn a_driver_is_told_of_the_end_of_a_process_that_it_watches(rt: HostRuntime) -> Result<(), Fail> {
    usual_shows(&rt, rt.alloc(), Tally::new(), &WATCHED_END)
}
