// The calls of a process: each is made, its port is woken where something was put, and what has to be waited for is.
ghost use Rattle.std.specs.Prelude.{◌≡◌, ◌≢◌, if◌then◌else◌, not, false, ℕ, ◌<◌, ◌≤◌, [], ◌∷◌, ◌++◌, length, take, drop, true, Option, option_to_list, OnOk, IfOk, slice_index_or};
ghost use Rattle.process_end.specs.port_lanes.Parcels.{names_below};
ghost use Rattle.process_end.specs.process_receipts.declared.receipt.Receipt.{Receipt as TheReceipt};
ghost use Rattle.process_end.specs.process_receipts.Asks.{asked};
ghost use Rattle.process_end.specs.process_receipts.Receipts.{is_put};
ghost use Rattle.process_end.specs.Views.{LaneEnd};
ghost use Rattle.process_end.specs.Commanded.{command_of, signal_of, IsRefusal};
ghost use Rattle.process_job.specs.Asks.{ends_file, vector_of};
ghost use Rattle.process_job.specs.Mails.{is_closed, is_replied, noproc_mail};
ghost use Rattle.process_job.specs.Actions.{ask_of, file_asks};
ghost use Rattle.process_job.specs.Going.{state};
ghost use Rattle.process_job.specs.Seats.{SeatsAfter, HasPorts};
ghost use Rattle.process_job.specs.Steps.{MakesCallsOf, MakesCommand};

use crate::action::{CommandForm, FileCommands, PlainCall};
use crate::halt::Halt;
use crate::log::MailLog;
use crate::seats::ProcessSeats;
use crate::waiting::{go_on, wait_for_reply};
use io_vector::{IoVec, Piece};
use no_memory::NoMemory;
use port_model::{Mail, Reason};
use port_sched::PortBody;
use process_end::{Ask, Commanded, Proc, SendRefusal};
use std::alloc::Global;
use std::sync::Wait;

/// Makes room for the receipts of so many calls, and for a mail of each. Where memory is wanting for that, the lists grow as calls are made.
pub(crate) fn make_room(proc: &mut Proc, log: &mut MailLog, calls: usize)
    ensures proc { proc.new ≡ proc.old }
    ensures log { log.new ≡ log.old }
{
    let _ = proc.reserve(calls);
    let _ = log.reserve(calls);
}

/// Data as a vector: one segment, or none where there are no bytes.
pub(crate) fn payload_of(alloc: Global, bytes: Piece) -> IoVec
    ensures { result ≡ vector_of bytes }
{
    if bytes.is_empty() {
        IoVec::new(alloc)
    } else {
        IoVec::of_piece(alloc, bytes)
    }
}

/// A process after a command, and whether the next command of its file follows.
#[derive(Drop)]
pub(crate) struct AfterCommand {
    pub proc: Proc,
    pub more: bool,
}

/// Whether the next command of a file follows one that was refused.
fn goes_on_after(refusal: SendRefusal) -> Result<bool, NoMemory>
    ensures more { IfOk result (λ more. (receipt : TheReceipt) (len : ℕ) → IsRefusal receipt len refusal → more ≡ not (ends_file receipt.outcome)) }
    ensures memory { OnOk result (refusal ≢ SendRefusal.NoMemory) }
{
    match refusal {
        SendRefusal::Closed { .. } => Ok(false),
        SendRefusal::SentOut => Ok(false),
        SendRefusal::NotSupported => Ok(true),
        SendRefusal::TooLong { .. } => Ok(true),
        SendRefusal::NoMemory => Err(NoMemory),
    }
}

/// Sends a command, and waits where it suspends the process.
pub(crate) fn send_command<B: PortBody, R: Wait>(
    rt: &R,
    seats: &mut ProcessSeats<B>,
    log: &mut MailLog,
    proc: Proc,
    form: CommandForm,
    payload: IoVec,
) -> Result<AfterCommand, Halt>
    requires ports { HasPorts seats.old proc }
    requires port { form.port < length proc.lanes }
    ensures seats { SeatsAfter result seats.old seats.new }
    ensures call { IfOk result (λ after.
        MakesCommand (asked form.line form.port (command_of form.how payload) form.how) (state proc log.old) (state after.proc log.new) after.more) }
{
    match proc.command(rt, form.line, form.port, payload, form.how) {
        Commanded::Accepted(proc, _) => {
            seats.wake(rt, form.port as usize)?;
            Ok(AfterCommand { proc, more: true })
        }
        Commanded::Suspended(stopped) => {
            seats.wake(rt, form.port as usize)?;
            let proc = go_on(rt, &mut seats.over, log, stopped)?;
            Ok(AfterCommand { proc, more: true })
        }
        Commanded::Dropped(proc, _) => Ok(AfterCommand { proc, more: true }),
        Commanded::Refused(proc, refusal) => {
            let more = goes_on_after(refusal)?;
            Ok(AfterCommand { proc, more })
        }
    }
}

/// The next bytes of a file, of which none is copied.
fn next_piece(content: &mut Piece, size: u32) -> Result<Piece, NoMemory>
    ensures piece { IfOk result (λ piece. piece ≡ take size content.old) }
    ensures rest { OnOk result (content.new ≡ drop size content.old) }
{
    let count = content.len().min(size as usize);
    let piece = content.part(0, count)?;
    content.advance(count);
    Ok(piece)
}

/// Sends a file in commands, up to the first one that finds the port closed or that the process may not make any more.
pub(crate) fn send_file<B: PortBody, R: Wait>(
    rt: &R,
    alloc: Global,
    seats: &mut ProcessSeats<B>,
    log: &mut MailLog,
    proc: Proc,
    file: FileCommands,
) -> Result<Proc, Halt>
    requires ports { HasPorts seats.old proc }
    requires port { file.form.port < length proc.lanes }
    requires size { 1 ≤ file.size }
    ensures seats { SeatsAfter result seats.old seats.new }
    ensures calls { IfOk result (λ proc'. MakesCallsOf (file_asks file) (state proc log.old) (state proc' log.new)) }
{
    let FileCommands {
        form,
        size,
        mut content,
    } = file;
    let mut sender = proc;
    make_room(&mut sender, log, content.len() / size as usize);
    'pieces: while !content.is_empty() {
        let bytes = next_piece(&mut content, size)?;
        let after = send_command(rt, seats, log, sender, form, payload_of(alloc, bytes))?;
        sender = after.proc;
        if !after.more {
            return Ok(sender);
        }
    }
    Ok(sender)
}

/// Whether the signal of an ask is answered by a Reply.
fn is_replied(ask: &Ask) -> bool
    ensures { result ≡ is_replied (signal_of ask.now) }
{
    matches!(
        ask,
        Ask::Control { .. } | Ask::Call { .. } | Ask::Close | Ask::Connect(_)
    )
}

/// What a process adds to its mail where the port of its ask is closed.
fn noproc_mail(port: u32, ask: &Ask) -> Option<Mail>
    ensures { option_to_list result ≡ noproc_mail port (signal_of ask.now) }
{
    match ask {
        Ask::Link => Some(Mail::Exit {
            port,
            reason: Reason::noproc(),
        }),
        Ask::Monitor(monitor) => Some(Mail::Down {
            port,
            monitor: *monitor,
            reason: Reason::noproc(),
        }),
        _ => None,
    }
}

/// The mail that a process adds whose signal was refused: its own for a closed port, where there is one.
fn added_for(refusal: SendRefusal, own: Option<Mail>) -> Result<Option<Mail>, NoMemory>
    ensures mail { IfOk result (λ added. (receipt : TheReceipt) (len : ℕ) → IsRefusal receipt len refusal
        → option_to_list added ≡ (if is_closed receipt.outcome then option_to_list own else [])) }
    ensures unput { OnOk result ((receipt : TheReceipt) (len : ℕ) → IsRefusal receipt len refusal → is_put receipt.outcome ≡ false) }
    ensures memory { OnOk result (refusal ≢ SendRefusal.NoMemory) }
{
    match refusal {
        SendRefusal::Closed { .. } => Ok(own),
        SendRefusal::SentOut => Ok(None),
        SendRefusal::NotSupported => Ok(None),
        SendRefusal::TooLong { .. } => Ok(None),
        SendRefusal::NoMemory => Err(NoMemory),
    }
}

/// Adds a mail of the process's own.
fn add_own(log: &mut MailLog, mail: Option<Mail>) -> Result<(), NoMemory>
    ensures { OnOk result (log.new ≡ log.old ++ option_to_list mail) }
{
    if let Some(mail) = mail {
        log.add(mail)?;
    }
    Ok(())
}

/// Sends a signal that is no command, and waits for its answer where it has one.
pub(crate) fn send_signal<B: PortBody, R: Wait>(
    rt: &R,
    seats: &mut ProcessSeats<B>,
    log: &mut MailLog,
    proc: &mut Proc,
    call: PlainCall,
) -> Result<(), Halt>
    requires ports { HasPorts seats.old proc.old }
    requires port { call.port < length proc.old.lanes }
    requires named { (d : LaneEnd) → names_below (slice_index_or proc.old.lanes call.port d).key.processes (signal_of call.ask) ≡ true }
    ensures seats { SeatsAfter result seats.old seats.new }
    ensures call { OnOk result (MakesCallsOf (ask_of call ∷ []) (state proc.old log.old) (state proc.new log.new)) }
{
    let PlainCall { line, port, ask } = call;
    let replied = is_replied(&ask);
    let own = noproc_mail(port, &ask);
    match proc.signal(rt, line, port, ask) {
        Ok(seq) => {
            seats.wake(rt, port as usize)?;
            if !replied {
                return Ok(());
            }
            wait_for_reply(rt, &mut seats.over, log, proc, port, seq)?;
            Ok(())
        }
        Err(refusal) => {
            let added = added_for(refusal, own)?;
            add_own(log, added)?;
            Ok(())
        }
    }
}
