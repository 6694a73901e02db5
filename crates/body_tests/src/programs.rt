//! Programs as ports.
ghost use Rattle.std.specs.Prelude.{◌≡◌, IfOk};

use crate::acts::PortAct;
use crate::failing::FetchlessSpawner;
use crate::rig::{PlayOptions, PortCase, QueueChoice, Wanted, framed, shows, usual_shows};
use crate::text::times;
use journal_text::Mode;
use outside::{MemProgram, MemSpawner};
use port_driver::Life;
use process_end::How;
use spawn_driver::{SpawnDriver, spawn_driver};
use std::alloc::{AllocError, Global};
use std::process::Abort;
use std::sync::Wait;
use std::test::Fail;

/// A port of a stream, where five waits of the poller find the write event alone.
const FIVE_WRITES: PlayOptions = PlayOptions {
    limits: QueueChoice::Usual,
    mode: Mode::Stream,
    writes: 5,
};

/// A port of packets whose length has one byte, where one wait of the poller finds the write event alone.
const ONE_PACKET: PlayOptions = PlayOptions {
    limits: QueueChoice::Usual,
    mode: Mode::Packet1,
    writes: 1,
};

/// What starts this program, with the events 0 and 1.
fn spawner(alloc: Global, program: MemProgram) -> Result<MemSpawner, Fail> {
    let mut spawner = MemSpawner::new(alloc, 0);
    spawner.add(program)?;
    Ok(spawner)
}

/// A driver of a program that takes at most one byte of an offer, and gives nothing.
fn slow(alloc: Global) -> Result<SpawnDriver<MemSpawner>, Fail>
    ensures { IfOk result (λ driver. driver.life ≡ Life.Fresh) }
{
    Ok(spawn_driver(spawner(alloc, MemProgram::new(alloc, 1))?))
}

/// A program that takes what it is offered, gives these chunks and ends.
fn giver(alloc: Global, chunks: &[&[u8]]) -> Result<MemProgram, Fail> {
    let mut program = MemProgram::new(alloc, 65_536);
    for chunk in chunks {
        program.give(chunk)?;
    }
    program.end(0);
    Ok(program)
}

/// A driver of that program.
fn giving(alloc: Global, chunks: &[&[u8]]) -> Result<SpawnDriver<MemSpawner>, Fail>
    ensures { IfOk result (λ driver. driver.life ≡ Life.Fresh) }
{
    let program = giver(alloc, chunks)?;
    Ok(spawn_driver(spawner(alloc, program)?))
}

/// Asserts what comes of the acts on a port of a program that takes at most one byte of an offer.
fn slow_shows<R: Abort + Wait>(rt: &R, alloc: Global, case: &PortCase) -> Result<(), Fail> {
    let driver = slow(alloc)?;
    shows(rt, alloc, driver, FIVE_WRITES, case.acts, case.wanted)
}

/// Asserts what comes of the acts on a port of a program that gives these chunks.
fn giver_shows<R: Abort + Wait>(
    rt: &R,
    alloc: Global,
    chunks: &[&[u8]],
    mode: Mode,
    case: &PortCase,
) -> Result<(), Fail> {
    let driver = giving(alloc, chunks)?;
    shows(rt, alloc, driver, framed(mode), case.acts, case.wanted)
}

/// A close of a port with five bytes for its program.
const SLOW_CLOSE: PortCase = PortCase {
    acts: &[
        PortAct::Command(0, How::Plain, b"hello"),
        PortAct::Close(0),
        PortAct::Turn(64),
        PortAct::Poll,
        PortAct::Poll,
        PortAct::Turn(64),
        PortAct::Poll,
        PortAct::Turn(64),
        PortAct::Poll,
        PortAct::Turn(64),
        PortAct::Poll,
        PortAct::Turn(64),
        PortAct::Poll,
        PortAct::Turn(64),
        PortAct::Poll,
        PortAct::Turn(64),
        PortAct::Mail(0),
    ],
    wanted: &[
        Wanted::Rows(
            "h p0 0 command - 68656c6c6f ; ; select 1 w 1\n\
             h p0 1 close ; ;\n\
             m closed\n\
             h e 0 output 1 ; took 1 ;\n\
             h e 1 output 1 ; took 1 ;\n\
             h e 2 output 1 ; took 1 ;\n\
             h e 3 output 1 ; took 1 ;\n\
             h e 4 output 1 ; took 1 ; select 1 w 0\n\
             h e 5 dropped 0 ; ;\n",
        ),
        Wanted::Acts(
            "p0 accepted 0\np0 put 1\nidle\nidle\nidle\nidle\nidle\nidle\nfinished\np0 reply 1 true\np0 exit normal\n",
        ),
        Wanted::Stopped,
    ],
};

#[test]
fn a_closing_port_gives_its_program_what_is_queued(rt: HostRuntime) -> Result<(), Fail> {
    slow_shows(&rt, rt.alloc(), &SLOW_CLOSE)
}

/// A kill of a port with five bytes for its program.
const KILLED: PortCase = PortCase {
    acts: &[
        PortAct::Command(0, How::Plain, b"hello"),
        PortAct::Exit(1, b"kill"),
        PortAct::Turn(64),
        PortAct::Poll,
        PortAct::Turn(64),
        PortAct::Mail(0),
    ],
    wanted: &[
        Wanted::Rows(
            "h p0 0 command - 68656c6c6f ; ; select 1 w 1\n\
             h p1 0 exit kill ; ;\n\
             m closed\n\
             h e 0 dropped 0 ; ;\n\
             h e 1 dropped 1 ; ;\n",
        ),
        Wanted::Acts("p0 accepted 0\np1 put 0\nidle\nfinished\np0 exit killed\n"),
    ],
};

#[test]
fn a_kill_gives_a_program_nothing(rt: HostRuntime) -> Result<(), Fail> {
    slow_shows(&rt, rt.alloc(), &KILLED)
}

/// The rows of a command of these bytes, and of one of those, which is too long for its frame.
fn two_rows(alloc: Global, fits: &str, long: &str) -> Result<String, AllocError> {
    format!(in alloc;
        "h p0 0 command - {fits} ; ; select 1 w 1\n\
         h e 0 output 1 ; took 256 ; select 1 w 0\n\
         h p0 1 command - {long} ; ; fail einval\n\
         m closed\n\
         h e 1 dropped 0 ; ;\n"
    )
}

/// The rows of a command of 255 bytes and one of 256, where a length has one byte.
fn long_rows(alloc: Global) -> Result<String, AllocError> {
    let fits = times(alloc, "61", 255)?;
    let long = times(alloc, "61", 256)?;
    two_rows(alloc, fits.as_str(), long.as_str())
}

/// A command that fits a frame whose length has one byte, and one that does not.
const TWO_FRAMES: [PortAct; 9] = [
    PortAct::Bulk(0, How::Plain, 255),
    PortAct::Turn(64),
    PortAct::Poll,
    PortAct::Turn(64),
    PortAct::Bulk(0, How::Plain, 256),
    PortAct::Turn(64),
    PortAct::Poll,
    PortAct::Turn(64),
    PortAct::Mail(0),
];

/// Asserts what comes of those commands, where the port has these rows.
fn frames_show<R: Abort + Wait>(rt: &R, alloc: Global, rows: &str) -> Result<(), Fail> {
    let wanted = [
        Wanted::Rows(rows),
        Wanted::Acts("p0 accepted 0\nidle\nidle\np0 accepted 1\nidle\nfinished\np0 exit einval\n"),
    ];
    let driver = giving(alloc, &[])?;
    shows(rt, alloc, driver, ONE_PACKET, &TWO_FRAMES, &wanted)
}

#[test]
fn a_command_too_long_for_its_frame_fails_the_port(rt: HostRuntime) -> Result<(), Fail> {
    let rows = long_rows(rt.alloc())?;
    frames_show(&rt, rt.alloc(), rows.as_str())
}

/// Four rounds of the poller, each before a turn, and then the mail of the owner.
const FOUR_ROUNDS: [PortAct; 9] = [
    PortAct::Poll,
    PortAct::Turn(64),
    PortAct::Poll,
    PortAct::Turn(64),
    PortAct::Poll,
    PortAct::Turn(64),
    PortAct::Poll,
    PortAct::Turn(64),
    PortAct::Mail(0),
];

/// Two packets, of which the second is cut off.
const PACKETS_CHUNKS: [&[u8]; 3] = [b"\x00\x03ab", b"c\x00\x00", b"\x00"];

/// What comes of them.
const PACKETS: PortCase = PortCase {
    acts: &FOUR_ROUNDS,
    wanted: &[
        Wanted::Rows(
            "h e 0 input 0 ; got 00036162 ;\n\
             h e 1 input 0 ; got 630000 ; data plain 616263, data plain -\n\
             h e 2 input 0 ; got 00 ;\n\
             h e 3 input 0 ; end ; select 0 r 0, fail normal\n\
             m closed\n",
        ),
        Wanted::Acts("idle\nidle\nidle\nfinished\np0 data 616263\np0 data \np0 exit normal\n"),
    ],
};

#[test]
fn packets_come_whole_and_one_that_is_cut_off_does_not(rt: HostRuntime) -> Result<(), Fail> {
    let mode = Mode::Packet2;
    giver_shows(&rt, rt.alloc(), &PACKETS_CHUNKS, mode, &PACKETS)
}

/// Lines, of which one is long and one doesn't end.
const LINES_CHUNKS: [&[u8]; 1] = [b"abc\nabcd\n\nx"];

/// What comes of them.
const LINES: PortCase = PortCase {
    acts: &FOUR_ROUNDS,
    wanted: &[
        Wanted::Rows(
            "h e 0 input 0 ; got 6162630a616263640a0a78 ; data eol 616263, data noeol 616263, data eol 64, data eol -\n\
             h e 1 input 0 ; end ; data noeol 78, select 0 r 0, fail normal\n\
             m closed\n",
        ),
        Wanted::Acts(
            "idle\nfinished\nfinished\nfinished\np0 eol 616263\np0 noeol 616263\np0 eol 64\np0 eol \n\
             p0 noeol 78\np0 exit normal\n",
        ),
    ],
};

#[test]
fn lines_come_as_they_end_and_long_ones_in_pieces(rt: HostRuntime) -> Result<(), Fail> {
    let mode = Mode::Line(3);
    giver_shows(&rt, rt.alloc(), &LINES_CHUNKS, mode, &LINES)
}

/// Three chunks of a stream.
const STREAM_CHUNKS: [&[u8]; 3] = [b"a", b"bc", b"def"];

/// What comes of them.
const STREAM: PortCase = PortCase {
    acts: &FOUR_ROUNDS,
    wanted: &[Wanted::Data("616263646566")],
};

#[test]
fn a_stream_comes_as_its_bytes(rt: HostRuntime) -> Result<(), Fail> {
    let mode = Mode::Stream;
    giver_shows(&rt, rt.alloc(), &STREAM_CHUNKS, mode, &STREAM)
}

/// A packet that tells too many bytes.
const HUGE_PACKET_CHUNKS: [&[u8]; 1] = [b"\x7f\xff\xff\xff"];

/// What comes of them.
const HUGE_PACKET: PortCase = PortCase {
    acts: &FOUR_ROUNDS,
    wanted: &[
        Wanted::Rows("h e 0 input 0 ; got 7fffffff ; fail emsgsize\nm closed\n"),
        Wanted::Acts("finished\nfinished\nfinished\nfinished\np0 exit emsgsize\n"),
    ],
};

#[test]
fn a_packet_that_tells_too_many_bytes_fails_the_port(rt: HostRuntime) -> Result<(), Fail> {
    let mode = Mode::Packet4;
    giver_shows(&rt, rt.alloc(), &HUGE_PACKET_CHUNKS, mode, &HUGE_PACKET)
}

/// A driver of a program whose first fetch fails.
fn fetchless(alloc: Global) -> Result<SpawnDriver<FetchlessSpawner>, Fail>
    ensures { IfOk result (λ driver. driver.life ≡ Life.Fresh) }
{
    let spawner = spawner(alloc, MemProgram::new(alloc, 1))?;
    Ok(spawn_driver(FetchlessSpawner::new(spawner)))
}

/// What comes of it.
const NO_FETCH: PortCase = PortCase {
    acts: &FOUR_ROUNDS,
    wanted: &[
        Wanted::Rows("h e 0 input 0 ; failed ; fail eio\nm closed\n"),
        Wanted::Acts("finished\nfinished\nfinished\nfinished\np0 exit eio\n"),
        Wanted::Stopped,
    ],
};

#[test]
fn a_fetch_that_fails_fails_the_port(rt: HostRuntime) -> Result<(), Fail> {
    let driver = fetchless(rt.alloc())?;
    usual_shows(&rt, rt.alloc(), driver, &NO_FETCH)
}
