//! What a test has done, one act after another.
use crate::others::OthersBeside;
use crate::rig::name;
use port_body::{Body, Driver, Turn};
use port_model::Piece;
use process_end::{Ask, How};
use std::alloc::Global;
use std::sync::Wait;
use std::test::Fail;

/// An act. The number that comes first is that of the process whose act it is.
#[derive(Clone, Copy)]
pub(crate) enum PortAct {
    /// A command of these bytes.
    Command(u32, How, &'static [u8]),
    /// A command of so many bytes, each an `a`.
    Bulk(u32, How, usize),
    /// An operation on no bytes.
    Control(u32, u32),
    /// An operation on no term.
    Call(u32, u32),
    Close(u32),
    OwnerClose(u32),
    Connect(u32, u32),
    OwnerConnect(u32, u32),
    Link(u32),
    Unlink(u32),
    Monitor(u32, u64),
    Demonitor(u32, u64),
    /// An exit signal for this reason.
    Exit(u32, &'static [u8]),
    /// The process ends for this reason.
    End(u32, &'static [u8]),
    /// The suspended process tries to go on.
    Resume(u32),
    /// The process takes all mail that it has.
    Mail(u32),
    /// The process looks at the port.
    Look(u32),
    /// The port makes a turn of at most so many steps.
    Turn(u32),
    /// The poller makes a round.
    Poll,
    /// The worker of this number does a job.
    Work(u32),
}

/// The signal that an act puts, where it puts one that is no command.
fn ask_of(act: PortAct) -> Result<Option<(u32, Ask)>, Fail> {
    let asked = match act {
        PortAct::Control(process, op) => {
            let bytes = Piece::empty();
            (process, Ask::Control { op, bytes })
        }
        PortAct::Call(process, op) => {
            let bytes = Piece::empty();
            (process, Ask::Call { op, bytes })
        }
        PortAct::Close(process) => (process, Ask::Close),
        PortAct::OwnerClose(process) => (process, Ask::OwnerClose),
        PortAct::Connect(process, owner) => (process, Ask::Connect(owner)),
        PortAct::OwnerConnect(process, owner) => (process, Ask::OwnerConnect(owner)),
        PortAct::Link(process) => (process, Ask::Link),
        PortAct::Unlink(process) => (process, Ask::Unlink),
        PortAct::Monitor(process, number) => (process, Ask::Monitor(number)),
        PortAct::Demonitor(process, number) => (process, Ask::Demonitor(number)),
        PortAct::Exit(process, reason) => (process, Ask::Exit(name(reason)?)),
        _ => return Ok(None),
    };
    Ok(Some(asked))
}

/// A process puts a command of so many bytes.
fn put_bulk<R: Wait>(
    rt: &R,
    alloc: Global,
    others: &mut OthersBeside,
    process: u32,
    how: How,
    count: usize,
) -> Result<(), Fail> {
    let bytes = vec![in alloc; b'a'; count]?;
    others.command(rt, alloc, process, bytes.as_slice(), how)
}

/// A process ends for the reason of this name.
fn put_end<R: Wait>(
    rt: &R,
    others: &mut OthersBeside,
    process: u32,
    reason: &[u8],
) -> Result<(), Fail> {
    let reason = name(reason)?;
    others.end(rt, process, reason)
}

/// Makes an act of one beside the port that puts no signal but a command.
fn act_beside<R: Wait>(
    rt: &R,
    alloc: Global,
    others: &mut OthersBeside,
    act: PortAct,
) -> Result<(), Fail> {
    match act {
        PortAct::Command(process, how, bytes) => others.command(rt, alloc, process, bytes, how),
        PortAct::Bulk(process, how, count) => put_bulk(rt, alloc, others, process, how, count),
        PortAct::End(process, reason) => put_end(rt, others, process, reason),
        PortAct::Resume(process) => others.resume(rt, process),
        PortAct::Mail(process) => others.mail(rt, process),
        PortAct::Look(process) => others.look(process),
        PortAct::Poll => others.poll(rt, alloc),
        PortAct::Work(worker) => others.work(rt, alloc, worker),
        _ => Ok(()),
    }
}

/// Makes an act of one beside the port.
fn ask_or_act<R: Wait>(
    rt: &R,
    alloc: Global,
    others: &mut OthersBeside,
    act: PortAct,
) -> Result<(), Fail> {
    match ask_of(act)? {
        Some((process, ask)) => others.ask(rt, process, ask),
        None => act_beside(rt, alloc, others, act),
    }
}

fn turn_words(turn: Turn, finished: bool) -> &'static str {
    match turn {
        Turn::Idle if finished => "finished\n",
        Turn::Idle => "idle\n",
        Turn::More => "more\n",
        Turn::NoMemory => "no memory\n",
    }
}

/// Makes a turn, and tells what it came to.
fn make_turn<D: Driver, R: Wait>(rt: &R, body: &mut Body<D>, max: u32) -> &'static str {
    let turn = body.turn(rt, max);
    turn_words(turn, body.is_finished())
}

/// Makes an act.
fn act_one<D: Driver, R: Wait>(
    rt: &R,
    alloc: Global,
    body: &mut Body<D>,
    others: &mut OthersBeside,
    act: PortAct,
) -> Result<(), Fail> {
    let PortAct::Turn(max) = act else {
        return ask_or_act(rt, alloc, others, act);
    };
    others.text.push_str(make_turn(rt, body, max))?;
    Ok(())
}

/// Makes the acts, one after another.
pub(crate) fn act_all<D: Driver, R: Wait>(
    rt: &R,
    alloc: Global,
    body: &mut Body<D>,
    others: &mut OthersBeside,
    acts: &[PortAct],
) -> Result<(), Fail> {
    for act in acts {
        act_one(rt, alloc, body, others, *act)?;
    }
    Ok(())
}
