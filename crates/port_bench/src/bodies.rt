//! Commands of 8 processes at one port, by hand on one thread. A port is passed by reference, since what has one by value costs its proof the layout of all of it.
use crate::crew::{BURST, Crew, SENDERS};
use crate::work::BodyWork;
use anyhow::{Result, bail, ensure};
use port_body::{Body, Driver, Turn};
use std::rt::Clock;
use std::sync::Wait;
use std::time::{Duration, Instant};

/// How many steps a turn makes.
const STEPS: u32 = 64;

/// The time of a work on a port that was just opened.
pub(crate) fn timed<D: Driver, R: Clock + Wait>(
    rt: &R,
    body: &mut Body<D>,
    crew: &mut Crew,
    work: BodyWork,
    commands: u32,
) -> Result<Duration> {
    match work {
        BodyWork::Echo => echo_time(rt, body, crew, commands),
        BodyWork::Wait => wait_time(rt, body, crew, commands),
        BodyWork::Free => free_time(rt, body, crew, commands),
    }
}

/// Makes a turn.
fn turn<D: Driver, R: Wait>(rt: &R, body: &mut Body<D>) -> Turn {
    body.turn(rt, STEPS)
}

/// Makes turns until the port is idle.
fn settle<D: Driver, R: Wait>(rt: &R, body: &mut Body<D>) -> Result<()> {
    for _ in rt.forever() {
        match turn(rt, body) {
            Turn::Idle => return Ok(()),
            Turn::More => {}
            Turn::NoMemory => bail!("no memory"),
        }
    }
    unreachable!()
}

/// The time in which the port comes to be idle.
fn settling_time<D: Driver, R: Clock + Wait>(rt: &R, body: &mut Body<D>) -> Result<Duration> {
    let start = Instant::now(rt)?;
    settle(rt, body)?;
    Ok(start.elapsed(rt)?)
}

/// Each sender puts its commands, the port handles them, and its owner takes what is echoed, whose number is the answer.
fn echo_burst<D: Driver, R: Wait>(rt: &R, body: &mut Body<D>, crew: &mut Crew) -> Result<u32> {
    crew.put(rt, BURST)?;
    settle(rt, body)?;
    Ok(crew.take_mail(rt))
}

/// Makes bursts of so many commands in all, and answers how many are echoed.
fn echo_all<D: Driver, R: Wait>(
    rt: &R,
    body: &mut Body<D>,
    crew: &mut Crew,
    commands: u32,
) -> Result<u32> {
    let mut echoed = 0u32;
    for _ in 0..commands / (SENDERS * BURST) {
        echoed = echoed.saturating_add(echo_burst(rt, body, crew)?);
    }
    Ok(echoed)
}

/// The time in which so many commands are put, a port handles them, and its owner takes what is echoed.
fn echo_time<D: Driver, R: Clock + Wait>(
    rt: &R,
    body: &mut Body<D>,
    crew: &mut Crew,
    commands: u32,
) -> Result<Duration> {
    let start = Instant::now(rt)?;
    let echoed = echo_all(rt, body, crew, commands)?;
    let time = start.elapsed(rt)?;
    ensure!(
        echoed == commands,
        "{echoed} commands were echoed, not {commands}"
    );
    Ok(time)
}

/// The time in which so many commands that lie in the lane of a port, behind one that makes it busy, come to wait.
fn wait_time<D: Driver, R: Clock + Wait>(
    rt: &R,
    body: &mut Body<D>,
    crew: &mut Crew,
    commands: u32,
) -> Result<Duration> {
    crew.control(rt, 1)?;
    crew.put(rt, commands / SENDERS)?;
    let time = settling_time(rt, body)?;
    ensure!(crew.take_mail(rt) == 1, "a busy port handled a command");
    Ok(time)
}

/// The time in which a busy port that is freed handles so many commands that wait.
fn free_time<D: Driver, R: Clock + Wait>(
    rt: &R,
    body: &mut Body<D>,
    crew: &mut Crew,
    commands: u32,
) -> Result<Duration> {
    wait_time(rt, body, crew, commands)?;
    crew.control(rt, 2)?;
    let time = settling_time(rt, body)?;
    let came = crew.take_mail(rt);
    ensure!(
        came == commands.saturating_add(1),
        "{came} mails came for {commands} commands"
    );
    Ok(time)
}
