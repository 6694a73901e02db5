//! The processes that send to the one port.
ghost use Rattle.std.specs.Prelude.{◌≡◌, true};
ghost use Rattle.process_end.specs.Commanded.{proc_in, signal_of};
ghost use Rattle.process_end.specs.port_lanes.Parcels.{names_below};
ghost use Rattle.body_tests.specs.Beside.{CanServe, IsOfOnePort};

use crate::text::{put_line, put_mail, put_receipts, put_refusal};
use async_jobs::TakeEnd;
use port_model::{IoVec, Mail, Piece, Reason};
use process_end::{Ask, Commanded, How, NotYet, Proc, ProcParts, SendRefusal, Shown, Stopped};
use run_lanes::ProcessLanes;
use std::alloc::{AllocError, Global};
use std::sync::Wait;
use std::test::Fail;

/// The line of each call: these processes have no script.
const LINE: u32 = 1;

/// A process that may send.
#[derive(Drop)]
pub(crate) struct SendingProcess {
    proc: Proc,
    ghost one: { IsOfOnePort proc },
}

/// A process that the port suspended.
#[derive(Drop)]
pub(crate) struct WaitingProcess {
    stopped: Stopped,
    ghost one: { IsOfOnePort stopped.proc },
}

/// A process of the port.
#[derive(Drop)]
pub(crate) enum HandProcess {
    Sending(SendingProcess),
    Waiting(WaitingProcess),
    /// It has ended, and its mailbox is left.
    Ended(TakeEnd<Mail>),
    /// It is in a call.
    Away,
}

/// The process of this number, which has made no call.
#[tactic(auto, using(crate::proofs::OnePort::begun_one))]
pub(crate) fn begun(
    alloc: Global,
    number: u32,
    lanes: ProcessLanes,
    soft: bool,
) -> Result<HandProcess, Fail>
    requires { CanServe number lanes }
{
    let soft = vec![in alloc; soft; 1]?;
    let ProcessLanes {
        mailbox,
        lanes,
        seats,
    } = lanes;
    let parts = ProcParts {
        number,
        mailbox,
        lanes,
        seats,
        soft,
    };
    let proc = Proc::new(alloc, parts);
    Ok(HandProcess::Sending(SendingProcess { proc }))
}

/// Whether the process that a signal names, if it names one, is one of the three.
fn is_within(ask: &Ask) -> bool
    ensures { result ≡ names_below 3 (signal_of ask.now) }
{
    match ask {
        Ask::Connect(process) | Ask::OwnerConnect(process) => *process < 3,
        _ => true,
    }
}

impl SendingProcess {
    /// Puts a command.
    fn put<R: Wait>(self, rt: &R, payload: IoVec, how: How) -> Commanded
        ensures { IsOfOnePort (proc_in result) }
    {
        self.proc.command(rt, LINE, 0, payload, how)
    }

    /// Puts a command, and tells what it came to.
    fn command<R: Wait>(
        self,
        rt: &R,
        process: u32,
        payload: IoVec,
        how: How,
        text: &mut String,
    ) -> (HandProcess, Result<(), AllocError>) {
        let commanded = self.put(rt, payload, how);
        let told = put_commanded(text, process, &commanded);
        (after_command(commanded), told)
    }

    /// Puts a signal that is no command.
    fn put_ask<R: Wait>(&mut self, rt: &R, ask: Ask) -> Result<u64, SendRefusal>
        requires { names_below 3 (signal_of ask) ≡ true }
    {
        self.proc.signal(rt, LINE, 0, ask)
    }

    /// Puts a signal that is no command, and tells what it came to.
    fn ask<R: Wait>(
        &mut self,
        rt: &R,
        process: u32,
        ask: Ask,
        text: &mut String,
    ) -> Result<(), Fail> {
        if !is_within(&ask) {
            return Err("no process".into());
        }
        let put = self.put_ask(rt, ask);
        put_sent(text, process, put)?;
        Ok(())
    }

    fn mail<R: Wait>(&mut self, rt: &R) -> Option<Mail> {
        self.proc.mail(rt)
    }

    fn look(&mut self) -> u64 {
        self.proc.look(0)
    }

    /// Ends the process, and puts its receipts.
    fn end<R: Wait>(
        self,
        rt: &R,
        process: u32,
        reason: Reason,
        receipts: &mut String,
    ) -> (HandProcess, Result<(), AllocError>) {
        match self.proc.exit_process(rt, reason) {
            Ok(end) => {
                let told = put_receipts(receipts, process, end.receipts.as_slice());
                (HandProcess::Ended(end.mailbox), told)
            }
            Err(_) => (HandProcess::Away, Err(AllocError)),
        }
    }
}

/// The process behind its command.
fn after_command(commanded: Commanded) -> HandProcess
    requires { IsOfOnePort (proc_in commanded) }
{
    match commanded {
        Commanded::Accepted(proc, _) => HandProcess::Sending(SendingProcess { proc }),
        Commanded::Suspended(stopped) => HandProcess::Waiting(WaitingProcess { stopped }),
        Commanded::Dropped(proc, _) => HandProcess::Sending(SendingProcess { proc }),
        Commanded::Refused(proc, _) => HandProcess::Sending(SendingProcess { proc }),
    }
}

/// Puts the line of what a command came to.
fn put_commanded(text: &mut String, process: u32, commanded: &Commanded) -> Result<(), AllocError> {
    match commanded {
        Commanded::Accepted(_, seq) => put_line(text, process, "accepted", &[*seq]),
        Commanded::Suspended(_) => put_line(text, process, "suspended", &[]),
        Commanded::Dropped(_, shown) => put_shown(text, process, *shown),
        Commanded::Refused(_, refusal) => put_refusal(text, process, *refusal),
    }
}

/// Puts the line of what another signal came to.
fn put_sent(
    text: &mut String,
    process: u32,
    sent: Result<u64, SendRefusal>,
) -> Result<(), AllocError> {
    match sent {
        Ok(seq) => put_line(text, process, "put", &[seq]),
        Err(refusal) => put_refusal(text, process, refusal),
    }
}

/// Puts the line of the word by which a command was dropped.
fn put_shown(text: &mut String, process: u32, shown: Shown) -> Result<(), AllocError> {
    match shown {
        Shown::Stat(word) => put_line(text, process, "dropped stat", &[word]),
        Shown::Msgq(word) => put_line(text, process, "dropped msgq", &[word]),
    }
}

/// Puts the line of why a process waits on.
fn put_why(text: &mut String, process: u32, why: &NotYet) -> Result<(), AllocError> {
    match why {
        NotYet::Empty => put_line(text, process, "waits", &[]),
        NotYet::Other(mail) => put_mail(text, process, mail),
        NotYet::SamePeriod { word } => put_line(text, process, "waits msgq", &[*word]),
    }
}

impl WaitingProcess {
    /// Tries to go on.
    fn resume<R: Wait>(
        self,
        rt: &R,
        process: u32,
        text: &mut String,
    ) -> (HandProcess, Result<(), AllocError>) {
        match self.stopped.try_resume(rt) {
            Ok(proc) => {
                let told = put_line(text, process, "goes on", &[]);
                (HandProcess::Sending(SendingProcess { proc }), told)
            }
            Err((stopped, why)) => {
                let told = put_why(text, process, &why);
                (HandProcess::Waiting(WaitingProcess { stopped }), told)
            }
        }
    }
}

impl HandProcess {
    /// Takes the process out for a call.
    fn take(&mut self) -> HandProcess {
        std::mem::replace(self, HandProcess::Away)
    }

    /// Takes a process out that may send.
    fn take_sending(&mut self) -> Option<SendingProcess> {
        match self.take() {
            HandProcess::Sending(peer) => Some(peer),
            _ => None,
        }
    }

    /// Takes a process out that the port suspended.
    fn take_waiting(&mut self) -> Option<WaitingProcess> {
        match self.take() {
            HandProcess::Waiting(peer) => Some(peer),
            _ => None,
        }
    }

    /// Puts the process back behind its call, which was told so.
    fn put_back(&mut self, behind: HandProcess, told: Result<(), AllocError>) -> Result<(), Fail> {
        *self = behind;
        told?;
        Ok(())
    }

    /// Puts a command of these bytes.
    pub(crate) fn command<R: Wait>(
        &mut self,
        rt: &R,
        process: u32,
        payload: IoVec,
        how: How,
        text: &mut String,
    ) -> Result<(), Fail> {
        let Some(peer) = self.take_sending() else {
            return Err("it may not send".into());
        };
        let (behind, told) = peer.command(rt, process, payload, how, text);
        self.put_back(behind, told)
    }

    /// Puts a signal that is no command.
    pub(crate) fn ask<R: Wait>(
        &mut self,
        rt: &R,
        process: u32,
        ask: Ask,
        text: &mut String,
    ) -> Result<(), Fail> {
        match self {
            HandProcess::Sending(peer) => peer.ask(rt, process, ask, text),
            _ => Err("it may not send".into()),
        }
    }

    /// Tries to go on after a suspension.
    pub(crate) fn resume<R: Wait>(
        &mut self,
        rt: &R,
        process: u32,
        text: &mut String,
    ) -> Result<(), Fail> {
        let Some(peer) = self.take_waiting() else {
            return Err("it isn't suspended".into());
        };
        let (behind, told) = peer.resume(rt, process, text);
        self.put_back(behind, told)
    }

    /// The next mail.
    pub(crate) fn next_mail<R: Wait>(&mut self, rt: &R) -> Option<Mail> {
        match self {
            HandProcess::Sending(peer) => peer.mail(rt),
            HandProcess::Ended(mailbox) => {
                let item = mailbox.take(rt)?;
                Some(item.value)
            }
            HandProcess::Waiting(_) | HandProcess::Away => None,
        }
    }

    /// The word STAT of the port.
    pub(crate) fn look(&mut self, process: u32, text: &mut String) -> Result<(), Fail> {
        let HandProcess::Sending(peer) = self else {
            return Err("it may not look".into());
        };
        put_line(text, process, "stat", &[peer.look()])?;
        Ok(())
    }

    /// Ends the process for this reason, and puts its receipts.
    pub(crate) fn end<R: Wait>(
        &mut self,
        rt: &R,
        process: u32,
        reason: Reason,
        receipts: &mut String,
    ) -> Result<(), Fail> {
        let Some(peer) = self.take_sending() else {
            return Err("it may not end".into());
        };
        let (behind, told) = peer.end(rt, process, reason, receipts);
        self.put_back(behind, told)
    }
}
