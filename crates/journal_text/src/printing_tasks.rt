//! The senders and the tasks of rows that are printed.

ghost use Rattle.std.specs.Prelude.{◌≡◌, ◌++◌, ◌∷◌, OnOk};
ghost use Rattle.journal_text.specs.Words.{bytes_text};
ghost use Rattle.std.specs.List.{concat};
ghost use Rattle.journal_text.specs.Signals.{sender_text, how_text, how_of, signal_text, task_text};

use crate::how::CommandFlags;
use crate::printing::{
    put, put_bytes, put_number, put_numbered, put_with_name, put_with_number, put_word,
};
use io_vector::IoVec;
use no_memory::NoMemory;
use port_model::{Dir, Sender, Signal, Task};

pub(crate) fn put_sender(out: &mut Vec<u8>, from: Sender) -> Result<(), NoMemory>
    ensures { OnOk result (out.new.items ≡ out.old.items ++ sender_text from) }
{
    match from {
        Sender::Process(process) => {
            put(out, b"p")?;
            put_number(out, u64::from(process))
        }
        Sender::Poller => put(out, b"e"),
        Sender::Worker(worker) => {
            put(out, b"w")?;
            put_number(out, u64::from(worker))
        }
        Sender::Timer => put(out, b"t"),
    }
}

/// The flags of a task.
fn how_of(suspends: bool, forced: bool) -> CommandFlags
    ensures { result ≡ how_of suspends forced }
{
    if suspends {
        CommandFlags::Suspends
    } else if forced {
        CommandFlags::Forced
    } else {
        CommandFlags::Plain
    }
}

/// The bytes of a vector, which are copied only where it has several segments.
#[tactic(auto, using(crate::proofs::PrintedBytes::one_segment))]
fn put_payload(out: &mut Vec<u8>, payload: &IoVec) -> Result<(), NoMemory>
    ensures { OnOk result (out.new.items ≡ out.old.items ++ bytes_text (concat payload.now)) }
{
    match payload.as_slice() {
        [] => put(out, b"-"),
        [piece] => put_bytes(out, piece.as_slice()),
        _ => put_bytes(out, payload.to_vec()?.as_slice()),
    }
}

/// A word, the flags of a command and its bytes.
fn put_command(
    out: &mut Vec<u8>,
    word: &[u8],
    how: CommandFlags,
    payload: &IoVec,
) -> Result<(), NoMemory>
    ensures { OnOk result (out.new.items ≡ out.old.items ++ (word.now ++ 32 ∷ how_text how ++ 32 ∷ bytes_text (concat payload.now))) }
{
    put_word(out, word)?;
    put_how(out, how)?;
    put(out, b" ")?;
    put_payload(out, payload)
}

fn put_how(out: &mut Vec<u8>, how: CommandFlags) -> Result<(), NoMemory>
    ensures { OnOk result (out.new.items ≡ out.old.items ++ how_text how) }
{
    match how {
        CommandFlags::Plain => put(out, b"-"),
        CommandFlags::Suspends => put(out, b"s"),
        CommandFlags::Forced => put(out, b"f"),
    }
}

/// An event that is ready in this direction.
fn put_ready(out: &mut Vec<u8>, event: u32, dir: Dir) -> Result<(), NoMemory>
    ensures { OnOk result (out.new.items ≡ out.old.items ++ signal_text CommandFlags.Plain (Signal.Ready event dir)) }
{
    match dir {
        Dir::Read => put_with_number(out, b"input", u64::from(event)),
        Dir::Write => put_with_number(out, b"output", u64::from(event)),
    }
}

fn put_signal(out: &mut Vec<u8>, how: CommandFlags, signal: &Signal) -> Result<(), NoMemory>
    ensures { OnOk result (out.new.items ≡ out.old.items ++ signal_text how signal.now) }
{
    match signal {
        Signal::Command(payload) => put_command(out, b"command", how, payload),
        Signal::OwnerCommand(payload) => put_command(out, b"send", how, payload),
        Signal::Control { op, bytes } => put_numbered(out, b"control", u64::from(*op), bytes),
        Signal::Call { op, bytes } => put_numbered(out, b"call", u64::from(*op), bytes),
        Signal::Close => put(out, b"close"),
        Signal::OwnerClose => put(out, b"ownerclose"),
        Signal::Connect(process) => put_with_number(out, b"connect", u64::from(*process)),
        Signal::OwnerConnect(process) => put_with_number(out, b"ownerconnect", u64::from(*process)),
        Signal::Link => put(out, b"link"),
        Signal::Unlink => put(out, b"unlink"),
        Signal::Monitor(number) => put_with_number(out, b"monitor", *number),
        Signal::Demonitor(number) => put_with_number(out, b"demonitor", *number),
        Signal::Exit(reason) => put_with_name(out, b"exit", reason),
        Signal::Gone(reason) => put_with_name(out, b"gone", reason),
        Signal::Ready { event, dir } => put_ready(out, *event, *dir),
        Signal::Dropped(event) => put_with_number(out, b"dropped", u64::from(*event)),
        Signal::AsyncDone { number, output } => put_numbered(out, b"done", *number, output),
    }
}

pub(crate) fn put_task(out: &mut Vec<u8>, task: &Task) -> Result<(), NoMemory>
    ensures { OnOk result (out.new.items ≡ out.old.items ++ task_text task.now) }
{
    put_signal(
        out,
        how_of(task.suspends(), task.is_forced()),
        task.signal(),
    )
}
