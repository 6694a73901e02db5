// How a process waits: for an answer, for data, and while it is suspended. Each wait ends where the run was stopped.
ghost use Rattle.std.specs.Prelude.{◌≡◌, ◌⊎◌, ◌<◌, ◌++◌, Some, length, OnOk, IfOk, Ok, Err};
ghost use Rattle.process_job.specs.Mails.{HasReply, readable};
ghost use Rattle.process_job.specs.Counts.{HasData};
ghost use Rattle.process_job.specs.Waits.{FoundClosed};
ghost use Rattle.process_job.specs.Going.{state, Waits};
ghost use Rattle.process_job.specs.Waiting.{OverAfter, GoesFrom, handed_over};

use crate::halt::Halt;
use crate::log::{DataWanted, MailLog};
use crate::seats::is_stopped;
use crate::taking::{NextMail, keep, take_next};
use no_memory::NoMemory;
use port_sched::Idle;
use port_words::busy::stat_closed;
use port_words::over::OverSeat;
use process_end::{NotYet, Proc, Stopped};
use std::sync::Wait;

/// Pauses until mail comes or a little while is over, where the run wasn't stopped.
fn pause<R: Wait>(rt: &R, over: &mut OverSeat, proc: &Proc, idle: &Idle) -> Result<(), Halt>
    ensures { OverAfter result over.old over.new }
{
    if is_stopped(over) {
        return Err(Halt::Stopped);
    }
    proc.rest(rt, idle);
    Ok(())
}

/// As `pause`, of a suspended process.
fn pause_suspended<R: Wait>(
    rt: &R,
    over: &mut OverSeat,
    stopped: &Stopped,
    idle: &Idle,
) -> Result<(), Halt>
    ensures { OverAfter result over.old over.new }
{
    if is_stopped(over) {
        return Err(Halt::Stopped);
    }
    stopped.rest(rt, idle);
    Ok(())
}

/// Takes mail until the answer of this port to the signal of this number is there.
pub(crate) fn wait_for_reply<R: Wait>(
    rt: &R,
    over: &mut OverSeat,
    log: &mut MailLog,
    proc: &mut Proc,
    port: u32,
    seq: u64,
) -> Result<(), Halt>
    ensures over { OverAfter result over.old over.new }
    ensures waits { OnOk result (Waits (state proc.old log.old) (state proc.new log.new)) }
    ensures reply { OnOk result (HasReply port (Some seq) log.new) }
{
    let idle = Idle::new();
    'mail: for _ in rt.forever() {
        match take_next(rt, log, proc)? {
            NextMail::Nothing => pause(rt, over, proc, &idle)?,
            NextMail::Reply {
                port: from,
                seq: number,
            } if from == port && number == seq => return Ok(()),
            _ => idle.reset(),
        }
    }
    unreachable!()
}

/// Takes mail until so much data of the port came, or the port was found closed and the mailbox empty after that.
pub(crate) fn wait_for_data<R: Wait>(
    rt: &R,
    over: &mut OverSeat,
    log: &mut MailLog,
    proc: &mut Proc,
    port: u32,
    wanted: DataWanted,
) -> Result<(), Halt>
    requires port { port < length proc.old.lanes }
    ensures over { OverAfter result over.old over.new }
    ensures waits { OnOk result (Waits (state proc.old log.old) (state proc.new log.new)) }
    ensures came { OnOk result (HasData port wanted log.new ⊎ FoundClosed port proc.new.seats) }
{
    let idle = Idle::new();
    let mut closed = false;
    'mail: for _ in rt.forever() {
        if log.has(port, wanted) {
            return Ok(());
        }
        if !matches!(take_next(rt, log, proc)?, NextMail::Nothing) {
            idle.reset();
            continue;
        }
        if closed {
            return Ok(());
        }
        closed = stat_closed(proc.look(port));
        if !closed {
            pause(rt, over, proc, &idle)?;
        }
    }
    unreachable!()
}

/// A suspended process that tried to go on.
#[derive(Drop)]
enum Resuming {
    GoesOn(Proc),
    Waits { stopped: Stopped, took_mail: bool },
}

/// Keeps the mail that was handed over in place of the resume, if one was.
fn keep_other(log: &mut MailLog, why: NotYet) -> Result<bool, NoMemory>
    ensures { OnOk result (log.new ≡ log.old ++ readable (handed_over why)) }
{
    match why {
        NotYet::Other(mail) => {
            keep(log, mail)?;
            Ok(true)
        }
        _ => Ok(false),
    }
}

/// Tries once to go on. Another mail than the resume is kept.
fn try_go_on<R: Wait>(rt: &R, log: &mut MailLog, stopped: Stopped) -> Result<Resuming, NoMemory>
    ensures { IfOk result (λ resuming. GoesFrom stopped.proc log.old resuming log.new) }
{
    let (stopped, why) = match stopped.try_resume(rt) {
        Ok(proc) => return Ok(Resuming::GoesOn(proc)),
        Err((stopped, why)) => (stopped, why),
    };
    let took_mail = keep_other(log, why)?;
    Ok(Resuming::Waits { stopped, took_mail })
}

/// Waits until a suspended process goes on.
pub(crate) fn go_on<R: Wait>(
    rt: &R,
    over: &mut OverSeat,
    log: &mut MailLog,
    stopped: Stopped,
) -> Result<Proc, Halt>
    ensures over { OverAfter result over.old over.new }
    ensures waits { IfOk result (λ proc. Waits (state stopped.proc log.old) (state proc log.new)) }
{
    let idle = Idle::new();
    let mut waiting = stopped;
    'tries: for _ in rt.forever() {
        match try_go_on(rt, log, waiting)? {
            Resuming::GoesOn(proc) => return Ok(proc),
            Resuming::Waits { stopped, took_mail } => {
                waiting = stopped;
                if took_mail {
                    idle.reset();
                } else {
                    pause_suspended(rt, over, &waiting, &idle)?;
                }
            }
        }
    }
    unreachable!()
}
