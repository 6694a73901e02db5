// What a step comes to.
ghost use Rattle.std.specs.Prelude.{◌≡◌, ℕ, Ok, drop};
ghost use Rattle.process_job.specs.Asks.{how_of, files_after, is_file, next_content};
ghost use Rattle.process_job.specs.Actions.{action_of};

use crate::log::DataWanted;
use process_end::{Ask, How};
use script_plan::{Act, Piece, Reason};
use std::collections::VecDeque;

/// How and where a command is sent.
#[derive(Clone, Copy)]
pub(crate) struct CommandForm {
    pub line: u32,
    pub port: u32,
    pub how: How,
}

/// A file, and the commands of so many bytes in which it is sent.
#[derive(Drop)]
pub(crate) struct FileCommands {
    pub form: CommandForm,
    pub size: u32,
    pub content: Piece,
}

/// A signal that is no command, and where it is sent.
#[derive(Drop)]
pub(crate) struct PlainCall {
    pub line: u32,
    pub port: u32,
    pub ask: Ask,
}

/// What a process does at a step.
#[derive(Drop)]
pub(crate) enum StepAction {
    /// Sends a command.
    Command { form: CommandForm, bytes: Piece },
    /// Sends a file.
    File(FileCommands),
    /// Sends another signal, and waits for its answer where it has one.
    Signal(PlainCall),
    /// Waits for data of a port.
    Wait { port: u32, wanted: DataWanted },
}

/// How a command with these options is sent.
fn how_of(force: bool, nosuspend: bool) -> How
    ensures { result ≡ how_of force nosuspend }
{
    match (force, nosuspend) {
        (false, false) => How::Plain,
        (false, true) => How::NoSuspend,
        (true, false) => How::Force,
        (true, true) => How::ForceNoSuspend,
    }
}

fn signal(line: u32, port: u32, ask: Ask) -> Result<StepAction, Reason>
    ensures { result ≡ Ok (StepAction.Signal (record { line = line; port = port; ask = ask })) }
{
    Ok(StepAction::Signal(PlainCall { line, port, ask }))
}

fn command(line: u32, port: u32, how: How, bytes: Piece) -> Result<StepAction, Reason>
    ensures { result ≡ Ok (StepAction.Command (record { line = line; port = port; how = how }) bytes) }
{
    let form = CommandForm { line, port, how };
    Ok(StepAction::Command { form, bytes })
}

fn wait(port: u32, wanted: DataWanted) -> Result<StepAction, Reason>
    ensures { result ≡ Ok (StepAction.Wait port wanted) }
{
    Ok(StepAction::Wait { port, wanted })
}

/// The content of the next file. A file that isn't there is empty.
fn next_file(files: &mut VecDeque<Piece>) -> Piece
    ensures content { result ≡ next_content files.old.items }
    ensures rest { files.new.items ≡ drop 1 files.old.items }
{
    files.pop_front().unwrap_or_default()
}

fn is_file(act: &Act) -> bool
    ensures { result ≡ is_file act.now }
{
    matches!(act, Act::File { .. })
}

/// The content of the file that a step sends, which is the next one, and nothing where it sends none.
pub(crate) fn content_for(act: &Act, files: &mut VecDeque<Piece>) -> Piece
    ensures content { (line : ℕ) → action_of line act.now result ≡ action_of line act.now (next_content files.old.items) }
    ensures rest { files.new.items ≡ files_after act.now files.old.items }
{
    if is_file(act) {
        next_file(files)
    } else {
        Piece::empty()
    }
}

/// What a step on this line comes to, or the reason for which it ends the process. `content` is that of the file that it sends.
pub(crate) fn action_of(line: u32, act: Act, content: Piece) -> Result<StepAction, Reason>
    ensures { result ≡ action_of line act content }
{
    match act {
        Act::Command {
            port,
            bytes,
            force,
            nosuspend,
        } => command(line, port, how_of(force, nosuspend), bytes),
        Act::File {
            port,
            size,
            force,
            nosuspend,
            ..
        } => {
            let how = how_of(force, nosuspend);
            let form = CommandForm { line, port, how };
            Ok(StepAction::File(FileCommands {
                form,
                size,
                content,
            }))
        }
        Act::Send { port, bytes } => command(line, port, How::Owner, bytes),
        Act::Control { port, op, bytes } => signal(line, port, Ask::Control { op, bytes }),
        Act::Call { port, op, bytes } => signal(line, port, Ask::Call { op, bytes }),
        Act::Close(port) => signal(line, port, Ask::Close),
        Act::Connect { port, to } => signal(line, port, Ask::Connect(to)),
        Act::SendClose(port) => signal(line, port, Ask::OwnerClose),
        Act::SendConnect { port, to } => signal(line, port, Ask::OwnerConnect(to)),
        Act::Link(port) => signal(line, port, Ask::Link),
        Act::Unlink(port) => signal(line, port, Ask::Unlink),
        Act::Monitor { port, number } => signal(line, port, Ask::Monitor(number)),
        Act::Demonitor { port, number } => signal(line, port, Ask::Demonitor(number)),
        Act::Exit { port, reason } => signal(line, port, Ask::Exit(reason)),
        Act::Expect { port, count } => wait(port, DataWanted::Messages(count)),
        Act::Bytes { port, count } => wait(port, DataWanted::Bytes(count)),
        Act::Die(reason) => Err(reason),
    }
}
