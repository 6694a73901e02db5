// A process that sends its commands one after another, and waits where it is suspended.
ghost use Rattle.std.specs.Prelude.{◌≡◌, length};

use crate::rig::payload;
use port_model::Reason;
use process_end::{Commanded, How, NotYet, Proc, ProcEnd, Stopped};
use std::alloc::Global;
use std::sync::Wait;
use std::thread::yield_now;

/// How many commands each process sends.
pub(crate) const COMMANDS: u32 = 10_000;

/// The most bytes of one command.
pub(crate) const MOST: u32 = 100;

/// A process with one port.
#[derive(Drop)]
pub(crate) struct Member {
    pub(crate) proc: Proc,
    ghost one_port: { length proc.lanes ≡ 1 },
}

impl Member {
    pub(crate) fn new(proc: Proc) -> Member
        requires { length proc.lanes ≡ 1 }
    {
        Member { proc }
    }
}

/// A suspended process with one port.
#[derive(Drop)]
struct Waiting {
    stopped: Stopped,
    ghost one_port: { length stopped.proc.lanes ≡ 1 },
}

/// Tries once to go on. The process that goes on or waits on, or none where another mail than the resume came.
fn try_once<R: Wait>(rt: &R, waiting: Waiting) -> Option<Result<Member, Waiting>> {
    match waiting.stopped.try_resume(rt) {
        Ok(proc) => Some(Ok(Member { proc })),
        Err((_, NotYet::Other(_))) => None,
        Err((stopped, _)) => Some(Err(Waiting { stopped })),
    }
}

/// Waits until a suspended process goes on.
fn wait<R: Wait>(rt: &R, stopped: Waiting) -> Option<Member> {
    let mut waiting = stopped;
    for _ in rt.forever() {
        match try_once(rt, waiting)? {
            Ok(member) => return Some(member),
            Err(back) => waiting = back,
        }
        yield_now();
    }
    unreachable!()
}

/// Sends the command of this line to port 0, of 1 to 100 bytes, and waits where it is suspended.
fn send_one<R: Wait>(rt: &R, alloc: Global, member: Member, line: u32) -> Option<Member> {
    let payload = payload(alloc, (line % MOST) as usize + 1)?;
    match member.proc.command(rt, line, 0, payload, How::Plain) {
        Commanded::Accepted(proc, _) => Some(Member { proc }),
        Commanded::Suspended(stopped) => wait(rt, Waiting { stopped }),
        _ => None,
    }
}

/// Sends all commands of a process, and ends it.
pub(crate) fn send_all<R: Wait>(rt: &R, alloc: Global, member: Member) -> Option<ProcEnd> {
    let mut member = member;
    for line in 0..COMMANDS {
        member = send_one(rt, alloc, member, line)?;
    }
    member.proc.exit_process(rt, Reason::normal()).ok()
}
