// The steps of one call, on the lane's end and the seat of its port.
ghost use Rattle.std.specs.Prelude.{◌≡◌, ◌<◌, ◌≤◌, ◌&&◌, ◌||◌, true, false, length, OnOk, IfOk, OnErr, IfErr, ℕ, Bool, Some};
ghost use Rattle.port_words.specs.busy.Known.{TakesBack};
ghost use Rattle.port_model.specs.Signals.{data_size, is_command};
ghost use Rattle.process_receipts.specs.Asks.{asked, is_forcing, is_stopping};
ghost use Rattle.process_receipts.specs.Receipts.{IsReceiptOf, MayLook};
ghost use Rattle.process_end.specs.Steps.{tasks_of, HasPut, HasSent, HasStepped, HasUndone, MayPut};
ghost use Rattle.process_end.specs.Calls.{HasLooked};
ghost use Rattle.process_end.specs.Added.{command_task, put_outcome, receipt_of, IsAdded};
ghost use Rattle.process_receipts.specs.declared.receipt.Outcome.TheVariants.{Accepted};

use crate::added::CommandAdded;
use no_memory::NoMemory;
use port_lanes::Parcel;
use port_model::{Signal, Task};
use port_words::busy::{Added, SendSeat, Weight, msgq_is_busy, stat_busy, stat_closed};
use process_receipts::{How, Outcome, Receipt};
use std::sync::Wait;
use task_queue::SendEnd;

/// Where a call stands: the line of its step, and the place of its port in the order of declaration, from 0.
#[derive(Clone, Copy)]
pub(crate) struct CallPlace {
    pub line: u32,
    pub port: u32,
}

/// The task of a command.
fn task_of(signal: Signal, how: How, suspends: bool) -> Task
    requires command { is_command signal ≡ true }
    requires alone { suspends ≡ true → is_stopping how ≡ true }
    ensures { result ≡ command_task signal how suspends }
{
    if how.is_forcing() {
        Task::forced(signal)
    } else if suspends {
        Task::suspending(signal)
    } else {
        Task::new(signal)
    }
}

/// Puts a task that is no command.
fn put_plain<R: Wait>(rt: &R, lane: &mut SendEnd<Parcel>, signal: Signal) -> Result<u64, NoMemory>
    requires may { MayPut lane.old signal }
    requires plain { is_command signal ≡ false }
    ensures place { IfOk result (λ seq. seq ≡ length (tasks_of lane.old)) }
    ensures put { OnOk result (HasPut lane.old lane.new (record { signal = signal; suspends = false; forced = false })) }
    ensures refused { OnErr result (lane.new ≡ lane.old) }
{
    match lane.put(rt, Parcel::plain(Task::new(signal))) {
        Ok(seq) => Ok(seq),
        Err(_) => Err(NoMemory),
    }
}

/// Puts a command with its weight, which comes back where no memory is found.
fn put_weighed<R: Wait>(
    rt: &R,
    lane: &mut SendEnd<Parcel>,
    task: Task,
    weight: Weight,
) -> Result<u64, Weight>
    requires may { MayPut lane.old task.signal }
    requires command { is_command task.signal ≡ true }
    requires size { weight.name.size ≡ data_size task.signal }
    requires table { weight.table ≡ lane.old.key.table }
    ensures place { IfOk result (λ seq. seq ≡ length (tasks_of lane.old)) }
    ensures put { OnOk result (HasPut lane.old lane.new task) }
    ensures refused { IfErr result (λ back. (back ≡ weight) × (lane.new ≡ lane.old)) }
{
    match lane.put(rt, Parcel::command(task, weight)) {
        Ok(seq) => Ok(seq),
        Err((parcel, NoMemory)) => Err(weight_of(parcel)),
    }
}

/// The weight of a command.
fn weight_of(parcel: Parcel) -> Weight
    requires { is_command parcel.task.signal ≡ true }
    ensures { parcel.weight ≡ Some result }
{
    let (_, weight) = parcel.into_parts();
    let Some(weight) = weight else { unreachable!() };
    weight
}

/// Takes the bytes of a command back that wasn't put, and answers the MSGQ word left.
fn take_back<R: Wait>(rt: &R, seat: &mut SendSeat, weight: Weight) -> u64
    requires table { weight.table ≡ seat.old.table }
    requires sender { weight.name.sender ≡ seat.old.sender.ledger.number }
    ensures { TakesBack seat.old seat.new weight.name result }
{
    seat.undo(rt, weight)
}

/// Adds the bytes of a command to the port's word MSGQ, and puts it. Where no memory is found the bytes are taken back.
fn add_command<R: Wait>(
    rt: &R,
    lane: &mut SendEnd<Parcel>,
    seat: &mut SendSeat,
    signal: Signal,
    how: How,
    busy: bool,
) -> Result<CommandAdded, NoMemory>
    requires may { MayPut lane.old signal }
    requires command { is_command signal ≡ true }
    requires short { data_size signal ≤ 262143 }
    requires few { length seat.old.sender.ledger.adds < 131072 }
    requires table { lane.old.key.table ≡ seat.old.table }
    ensures added { IfOk result (IsAdded how signal busy lane.old lane.new seat.old seat.new) }
    ensures undone { OnErr result (HasUndone how (data_size signal) seat.old seat.new) }
    ensures unput { OnErr result (lane.new ≡ lane.old) }
{
    let size = signal.size() as u32;
    match seat.add_command(rt, size, how.add_how()) {
        Added::Busy { msgq } => Ok(CommandAdded::Dropped { msgq }),
        Added::Added { msgq, weight } => {
            let suspends = how.is_stopping() && (busy || msgq_is_busy(msgq));
            match put_weighed(rt, lane, task_of(signal, how, suspends), weight) {
                Ok(seq) => Ok(CommandAdded::Put {
                    msgq,
                    seq,
                    suspends,
                }),
                Err(weight) => {
                    take_back(rt, seat, weight);
                    Err(NoMemory)
                }
            }
        }
    }
}

fn put_outcome(suspends: bool) -> Outcome
    ensures { result ≡ put_outcome suspends }
{
    if suspends {
        Outcome::Suspended
    } else {
        Outcome::Accepted
    }
}

/// The receipt of a command that found its port open.
fn receipt_of(line: u32, port: u32, stat: u64, added: CommandAdded) -> Receipt
    ensures { result ≡ receipt_of line port stat added }
{
    match added {
        CommandAdded::Dropped { msgq } => Receipt {
            line,
            port,
            seq: None,
            stat: Some(stat),
            msgq: Some(msgq),
            outcome: Outcome::Dropped,
        },
        CommandAdded::Put {
            msgq,
            seq,
            suspends,
        } => Receipt {
            line,
            port,
            seq: Some(seq),
            stat: Some(stat),
            msgq: Some(msgq),
            outcome: put_outcome(suspends),
        },
    }
}

/// The receipt of a signal that put nothing for this outcome, after a look at its port.
fn unput_receipt(line: u32, port: u32, stat: u64, outcome: Outcome) -> Receipt
    ensures { result ≡ record { line = line; port = port; seq = None; stat = Some stat; msgq = None; outcome = outcome } }
{
    Receipt {
        line,
        port,
        seq: None,
        stat: Some(stat),
        msgq: None,
        outcome,
    }
}

/// The receipt of a signal that was put and is no command.
fn plain_receipt(line: u32, port: u32, stat: u64, seq: u64) -> Receipt
    ensures { result ≡ record { line = line; port = port; seq = Some seq; stat = Some stat; msgq = None; outcome = Accepted } }
{
    Receipt {
        line,
        port,
        seq: Some(seq),
        stat: Some(stat),
        msgq: None,
        outcome: Outcome::Accepted,
    }
}

/// Looks at the port of a call, and puts its signal where the port is open, and where it isn't busy or needn't be free.
pub(crate) fn send<R: Wait>(
    rt: &R,
    lane: &mut SendEnd<Parcel>,
    seat: &mut SendSeat,
    place: CallPlace,
    signal: Signal,
    how: How,
) -> Result<Receipt, NoMemory>
    requires may { MayPut lane.old signal }
    requires short { data_size signal ≤ 262143 }
    requires few { is_command signal ≡ true → length seat.old.sender.ledger.adds < 131072 }
    requires form { is_command signal ≡ false → is_forcing how ≡ false }
    requires table { lane.old.key.table ≡ seat.old.table }
    ensures receipt { IfOk result (λ receipt. (calls : ℕ) (soft : Bool) → MayLook calls soft (asked place.line place.port signal how)
        → IsReceiptOf calls soft (length (tasks_of lane.old)) (asked place.line place.port signal how) receipt) }
    ensures sent { IfOk result (λ receipt. HasSent (asked place.line place.port signal how) lane.old lane.new receipt.outcome) }
    ensures steps { IfOk result (λ receipt. HasStepped (asked place.line place.port signal how) seat.old seat.new receipt.outcome receipt.stat receipt.msgq) }
    ensures missed { OnErr result ((stat : ℕ) × HasLooked (asked place.line place.port signal how) stat seat.old seat.new) }
    ensures unsent { OnErr result (lane.new ≡ lane.old) }
{
    let CallPlace { line, port } = place;
    let stat = seat.look();
    if stat_closed(stat) {
        return Ok(unput_receipt(line, port, stat, Outcome::Closed));
    }
    if !signal.is_command() {
        let seq = put_plain(rt, lane, signal)?;
        return Ok(plain_receipt(line, port, stat, seq));
    }
    let busy = stat_busy(stat);
    if busy && how.is_dropping() {
        return Ok(unput_receipt(line, port, stat, Outcome::Dropped));
    }
    let added = add_command(rt, lane, seat, signal, how, busy)?;
    Ok(receipt_of(line, port, stat, added))
}
