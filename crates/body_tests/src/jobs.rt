//! Jobs of a driver, which workers do.
use crate::acts::PortAct;
use crate::rig::{PortCase, Wanted, usual_shows};
use process_end::How;
use sample_drivers::Digest;
use std::test::Fail;

/// What becomes of the acts at a port that is closed before its last job is done.
const LATE_JOB: &str = "p0 accepted 0\n\
    p0 accepted 1\n\
    p0 accepted 2\n\
    idle\n\
    idle\n\
    p0 put 3\n\
    idle\n\
    finished\n\
    p0 data 6261\n\
    p0 data 00000000000001fe\n\
    p0 reply 3 true\n\
    p0 exit normal\n";

/// Three jobs, of which the last is done behind the close.
const LATE_DONE: PortCase = PortCase {
    acts: &[
        PortAct::Command(0, How::Plain, b"\x01\x01ab"),
        PortAct::Command(0, How::Plain, b"\x01\x02\xff\xff"),
        PortAct::Command(0, How::Plain, b"\x02\x01cd"),
        PortAct::Turn(64),
        PortAct::Work(1),
        PortAct::Work(1),
        PortAct::Turn(64),
        PortAct::Close(0),
        PortAct::Turn(64),
        PortAct::Work(0),
        PortAct::Turn(64),
        PortAct::Mail(0),
    ],
    wanted: &[
        Wanted::Rows(
            "h p0 0 command - 01016162 ; ; async 0 1 1 6162\n\
             h p0 1 command - 0102ffff ; ; async 1 1 2 ffff\n\
             h p0 2 command - 02016364 ; ; async 2 2 1 6364\n\
             h w1 0 done 0 6261 ; ; data plain 6261\n\
             h w1 1 done 1 00000000000001fe ; ; data plain 00000000000001fe\n\
             h p0 3 close ; ;\n\
             m closed\n\
             l w0 0 done 2 6463\n",
        ),
        Wanted::Acts(LATE_JOB),
    ],
};

#[test]
fn a_job_that_is_done_behind_the_close_is_late(rt: HostRuntime) -> Result<(), Fail> {
    usual_shows(&rt, rt.alloc(), Digest::new(), &LATE_DONE)
}
