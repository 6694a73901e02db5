// How the receipts of calls are told to their callers.
ghost use Rattle.std.specs.Prelude.{◌≡◌, ℕ, true, false, unwrap_or};
ghost use Rattle.port_words.specs.busy.Stat.{marks_told};
ghost use Rattle.port_lanes.specs.port_history.Laws.{may_send};
ghost use Rattle.port_model.specs.Signals.{is_command};
ghost use Rattle.port_model.specs.declared.signal.Sender.TheVariants.{Process};
ghost use Rattle.suspend_list.specs.declared.note.StopNote.{StopNote};
ghost use Rattle.process_receipts.specs.Asks.{is_suspended};
ghost use Rattle.process_end.specs.Ports.{AllFree, HasStopped};
ghost use Rattle.process_end.specs.Commanded.{command_of, is_answered, note_of, proc_in, shown_of, signal_of, IsAnswered, IsCommanded};

use crate::answers::{Ask, Commanded, SendRefusal, Shown};
use crate::proc::Proc;
use crate::sides::Sides;
use crate::stopped::Stopped;
use io_vector::IoVec;
use port_model::Signal;
use port_words::busy::stat_marks;
use process_receipts::{How, Outcome, Receipt};
use suspend_list::StopNote;

/// The signal of a command.
pub(crate) fn command(how: How, payload: IoVec) -> Signal
    ensures value { result ≡ command_of how payload }
    ensures command { is_command result ≡ true }
    ensures sends { (process : ℕ) → may_send (Process process) result ≡ true }
{
    match how {
        How::Owner => Signal::OwnerCommand(payload),
        _ => Signal::Command(payload),
    }
}

/// The signal of an ask.
pub(crate) fn signal_of(ask: Ask) -> Signal
    ensures value { result ≡ signal_of ask }
    ensures plain { is_command result ≡ false }
    ensures sends { (process : ℕ) → may_send (Process process) result ≡ true }
{
    match ask {
        Ask::Control { op, bytes } => Signal::Control { op, bytes },
        Ask::Call { op, bytes } => Signal::Call { op, bytes },
        Ask::Close => Signal::Close,
        Ask::OwnerClose => Signal::OwnerClose,
        Ask::Connect(process) => Signal::Connect(process),
        Ask::OwnerConnect(process) => Signal::OwnerConnect(process),
        Ask::Link => Signal::Link,
        Ask::Unlink => Signal::Unlink,
        Ask::Monitor(number) => Signal::Monitor(number),
        Ask::Demonitor(number) => Signal::Demonitor(number),
        Ask::Exit(reason) => Signal::Exit(reason),
    }
}

/// The marks that the STAT word of a receipt tells.
fn marks(receipt: &Receipt) -> u64
    ensures { result ≡ marks_told (unwrap_or receipt.now.stat 0) }
{
    stat_marks(receipt.stat.unwrap_or(0))
}

/// What a signal that is no command is answered.
pub(crate) fn answer(receipt: &Receipt, len: u64) -> Result<u64, SendRefusal>
    requires { is_answered receipt.now.outcome ≡ true }
    ensures { IsAnswered receipt.now len result }
{
    match receipt.outcome {
        Outcome::Accepted => Ok(receipt.seq.unwrap_or(0)),
        Outcome::Closed => Err(SendRefusal::Closed {
            mark: marks(receipt),
        }),
        Outcome::NotSupported => Err(SendRefusal::NotSupported),
        Outcome::TooLong => Err(SendRefusal::TooLong { len }),
        Outcome::SentOut => Err(SendRefusal::SentOut),
        Outcome::Suspended | Outcome::Dropped => unreachable!(),
    }
}

/// The word by which a command was dropped.
fn shown(receipt: &Receipt) -> Shown
    ensures { result ≡ shown_of receipt.now.stat receipt.now.msgq }
{
    match receipt.msgq {
        Some(msgq) => Shown::Msgq(msgq),
        None => Shown::Stat(receipt.stat.unwrap_or(0)),
    }
}

/// The note of a command that suspended its sender.
fn note(receipt: &Receipt) -> StopNote
    ensures { result ≡ note_of receipt.now }
{
    StopNote {
        port: receipt.port,
        seq: receipt.seq.unwrap_or(0),
        msgq: receipt.msgq.unwrap_or(0),
    }
}

/// What a command is answered.
pub(crate) fn commanded(sides: Sides, receipt: &Receipt, len: u64) -> Commanded
    requires free { is_suspended receipt.now.outcome ≡ false → AllFree sides }
    requires stopped { is_suspended receipt.now.outcome ≡ true → HasStopped (record { proc = sides; note = note_of receipt.now; resumed = false }) }
    ensures process { proc_in result ≡ sides }
    ensures answer { IsCommanded receipt.now len result }
{
    match receipt.outcome {
        Outcome::Accepted => Commanded::Accepted(Proc { sides }, receipt.seq.unwrap_or(0)),
        Outcome::Suspended => Commanded::Suspended(Stopped {
            sides,
            note: note(receipt),
            resumed: false,
        }),
        Outcome::Dropped => Commanded::Dropped(Proc { sides }, shown(receipt)),
        Outcome::Closed => Commanded::Refused(
            Proc { sides },
            SendRefusal::Closed {
                mark: marks(receipt),
            },
        ),
        Outcome::NotSupported => Commanded::Refused(Proc { sides }, SendRefusal::NotSupported),
        Outcome::TooLong => Commanded::Refused(Proc { sides }, SendRefusal::TooLong { len }),
        Outcome::SentOut => Commanded::Refused(Proc { sides }, SendRefusal::SentOut),
    }
}
