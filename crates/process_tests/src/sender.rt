// A process with one port, which may send or is suspended, and its calls.
ghost use Rattle.std.specs.Prelude.{◌≡◌, [], ◌∷◌, length, IfSome};
ghost use Rattle.port_words.specs.declared.busy.view.StatMark.TheVariants.{Busy};
ghost use Rattle.port_words.specs.busy.Known.{InRange};

use crate::rig::{WatchedPort, end, mailed_process, one_port};
use port_model::{IoVec, Mail, Piece};
use port_words::busy::QueueLimits;
use process_end::{Ask, Commanded, How, NotYet, Proc, ProcEnd, SendRefusal, Shown, Stopped};
use std::alloc::Global;
use std::mem;
use std::sync::Wait;
use suspend_list::StopNote;
use task_queue::SendEnd;

pub(crate) const PERIOD: u64 = 1 << 40;

/// A process that may send to its one port.
#[derive(Drop)]
struct RunningProcess {
    proc: Proc,
    ghost one_port: { length proc.lanes ≡ 1 },
}

impl RunningProcess {
    /// Sends a link.
    #[tactic(auto, using(crate::proofs::Ports::signalled_ports))]
    fn link<R: Wait>(&mut self, rt: &R) -> Result<u64, SendRefusal> {
        self.proc.signal(rt, 1, 0, Ask::Link)
    }

    /// The STAT word of the port.
    fn look(&mut self) -> u64 {
        self.proc.look(0)
    }

    /// The number of the command whose resume is the next mail.
    fn next_resume<R: Wait>(&mut self, rt: &R) -> Option<u64> {
        match &self.proc.mail(rt) {
            Some(Mail::Resume { seq, .. }) => Some(*seq),
            _ => None,
        }
    }
}

/// A suspended process with one port.
#[derive(Drop)]
struct StoppedProcess {
    stopped: Stopped,
    ghost one_port: { length stopped.proc.lanes ≡ 1 },
}

/// A process, or that it has ended.
#[derive(Drop)]
enum Process {
    Runs(RunningProcess),
    Waits(StoppedProcess),
    Ended,
}

/// Why a suspended process waits on.
#[derive(Clone, Copy, PartialEq, Eq)]
pub(crate) enum Why {
    /// Its mailbox was empty.
    Empty,
    /// The resume of the command of this number came.
    OtherResume(u64),
    OtherMail,
    /// The period of its command goes on, with this word.
    SamePeriod(u64),
}

fn why_of(why: &NotYet) -> Why {
    match why {
        NotYet::Empty => Why::Empty,
        NotYet::Other(Mail::Resume { seq, .. }) => Why::OtherResume(*seq),
        NotYet::Other(_) => Why::OtherMail,
        NotYet::SamePeriod { word } => Why::SamePeriod(*word),
    }
}

/// What a call of a process that may send answers, or that the process may not send.
#[derive(Clone, Copy, PartialEq, Eq)]
pub(crate) enum SendAnswer {
    Accepted(u64),
    Suspended,
    Dropped(Shown),
    Refused(SendRefusal),
    MayNotSend,
}

/// A payload of so many bytes.
fn payload(alloc: Global, bytes: usize) -> Option<IoVec> {
    let piece = Piece::of_vec(vec![in alloc; 0u8; bytes].ok()?).ok()?;
    Some(IoVec::of_piece(alloc, piece))
}

/// A process that may send on, and what its command answers.
fn runs(proc: Proc, answer: SendAnswer) -> (Process, SendAnswer)
    requires { length proc.lanes ≡ 1 }
{
    (Process::Runs(RunningProcess { proc }), answer)
}

/// The process after a command of this line, and what the command answers.
fn command<R: Wait>(
    rt: &R,
    running: RunningProcess,
    line: u32,
    payload: IoVec,
    how: How,
) -> (Process, SendAnswer) {
    match running.proc.command(rt, line, 0, payload, how) {
        Commanded::Accepted(proc, number) => runs(proc, SendAnswer::Accepted(number)),
        Commanded::Suspended(stopped) => {
            (
                Process::Waits(StoppedProcess { stopped }),
                SendAnswer::Suspended,
            )
        }
        Commanded::Dropped(proc, shown) => runs(proc, SendAnswer::Dropped(shown)),
        Commanded::Refused(proc, refusal) => runs(proc, SendAnswer::Refused(refusal)),
    }
}

/// A suspended process after it tried to go on, and why it waits on, if it does.
#[tactic(auto, using(crate::proofs::Ports::waited_ports))]
fn try_resume<R: Wait>(rt: &R, waiting: StoppedProcess) -> (Process, Option<Why>) {
    match waiting.stopped.try_resume(rt) {
        Ok(proc) => (Process::Runs(RunningProcess { proc }), None),
        Err((stopped, why)) => (
            Process::Waits(StoppedProcess { stopped }),
            Some(why_of(&why)),
        ),
    }
}

/// The resume of this command of port 0.
fn resume(seq: u64, word: u64) -> Mail {
    Mail::Resume {
        port: 0,
        seq,
        word,
        closed: false,
    }
}

/// Process 0 with one port, the port, and the end that puts mail into the process's mailbox.
#[derive(Drop)]
pub(crate) struct PortSender {
    alloc: Global,
    process: Process,
    pub(crate) port: WatchedPort,
    mail: SendEnd<Mail>,
}

/// A sender whose port is free, where there is memory for it.
pub(crate) fn set_up(alloc: Global, limits: QueueLimits, soft: bool) -> Option<PortSender>
    requires { InRange limits.on limits.low limits.high }
    ensures { IfSome result (λ sender. sender.port.seat.known.marks ≡ []) }
{
    let (side, port) = one_port(alloc, limits, soft).ok()?;
    let (proc, mail) = mailed_process(alloc, side).ok()?;
    Some(PortSender {
        alloc,
        process: Process::Runs(RunningProcess { proc }),
        port,
        mail,
    })
}

/// A sender whose port is busy, where there is memory for it.
pub(crate) fn set_up_busy(alloc: Global, limits: QueueLimits, soft: bool) -> Option<PortSender>
    requires { InRange limits.on limits.low limits.high }
    ensures { IfSome result (λ sender. sender.port.seat.known.marks ≡ Busy ∷ []) }
{
    let mut sender = set_up(alloc, limits, soft)?;
    if sender.port.marks_busy() {
        Some(sender)
    } else {
        None
    }
}

impl PortSender {
    /// Sends a command of this line, of so many bytes.
    pub(crate) fn send<R: Wait>(&mut self, rt: &R, line: u32, bytes: usize, how: How) -> SendAnswer
        ensures { self.new.port.seat.known.marks ≡ self.old.port.seat.known.marks }
    {
        let Some(payload) = payload(self.alloc, bytes) else {
            return SendAnswer::MayNotSend;
        };
        let Process::Runs(running) = mem::replace(&mut self.process, Process::Ended) else {
            return SendAnswer::MayNotSend;
        };
        let (process, answer) = command(rt, running, line, payload, how);
        self.process = process;
        answer
    }

    fn link<R: Wait>(&mut self, rt: &R) -> SendAnswer {
        let Process::Runs(running) = &mut self.process else {
            return SendAnswer::MayNotSend;
        };
        match running.link(rt) {
            Ok(number) => SendAnswer::Accepted(number),
            Err(refusal) => SendAnswer::Refused(refusal),
        }
    }

    /// Sends so many links. What the last one answers, or the first one that isn't accepted.
    pub(crate) fn links<R: Wait>(&mut self, rt: &R, times: u32) -> SendAnswer {
        let mut answer = SendAnswer::MayNotSend;
        for _ in 0..times {
            answer = self.link(rt);
            if !matches!(answer, SendAnswer::Accepted(_)) {
                return answer;
            }
        }
        answer
    }

    /// The STAT word of the port, as the process finds it.
    pub(crate) fn look(&mut self) -> Option<u64> {
        match &mut self.process {
            Process::Runs(running) => Some(running.look()),
            _ => None,
        }
    }

    /// The note of the command that suspended the process.
    pub(crate) fn note(&self) -> Option<StopNote> {
        match &self.process {
            Process::Waits(waiting) => Some(waiting.stopped.note()),
            _ => None,
        }
    }

    /// Puts the resume of a command into the mailbox.
    pub(crate) fn puts_resume<R: Wait>(&mut self, rt: &R, seq: u64, word: u64) -> bool {
        self.mail.put(rt, resume(seq, word)).is_ok()
    }

    /// Tries to go on. Why the process waits on, if it does.
    pub(crate) fn try_resume<R: Wait>(&mut self, rt: &R) -> Option<Why> {
        let Process::Waits(waiting) = mem::replace(&mut self.process, Process::Ended) else {
            return None;
        };
        let (process, why) = try_resume(rt, waiting);
        self.process = process;
        why
    }

    /// Whether the suspended process goes on.
    pub(crate) fn goes_on<R: Wait>(&mut self, rt: &R) -> bool {
        self.try_resume(rt).is_none() && matches!(&self.process, Process::Runs(_))
    }

    /// The number of the command whose resume the process takes next.
    pub(crate) fn next_resume<R: Wait>(&mut self, rt: &R) -> Option<u64> {
        match &mut self.process {
            Process::Runs(running) => running.next_resume(rt),
            _ => None,
        }
    }

    /// Ends the process normally. What is left of it, where it may send.
    pub(crate) fn end<R: Wait>(&mut self, rt: &R) -> Option<ProcEnd> {
        match mem::replace(&mut self.process, Process::Ended) {
            Process::Runs(running) => end(rt, running.proc),
            _ => None,
        }
    }
}
