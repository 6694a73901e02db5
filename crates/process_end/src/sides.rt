// A process with its ports: what one that may send and a suspended one share.
ghost use Rattle.std.specs.Prelude.{◌≡◌, ◌<◌, ◌≤◌, ◌^◌, ℕ, true, false, Bool, Some, unwrap_or, [], length, reverse, slice_index_or, IfOk, OnErr};
ghost use Rattle.port_words.specs.busy.Known.{SendKnown};
ghost use Rattle.port_model.specs.declared.signal.Sender.TheVariants.{Process};
ghost use Rattle.port_model.specs.Signals.{data_size, is_command};
ghost use Rattle.port_lanes.specs.port_history.Laws.{may_send};
ghost use Rattle.port_lanes.specs.Parcels.{names_below};
ghost use Rattle.suspend_list.specs.declared.note.StopNote.{StopNote};
ghost use Rattle.process_receipts.specs.Asks.{asked, is_forcing, is_suspended};
ghost use Rattle.process_receipts.specs.Receipts.{IsReceiptOf, MayLook};
ghost use Rattle.process_end.specs.Views.{LaneEnd, proc_view};
ghost use Rattle.process_end.specs.Steps.{tasks_of, HasSent, HasStepped, MaySend};
ghost use Rattle.process_end.specs.Calls.{HasLooked, HasMade, HasMissed, TouchesPort};
ghost use Rattle.process_end.specs.Ports.{AllFree, AreParts, ArePorts, HasStopped};
ghost use Rattle.process_end.specs.Mailbox.{HasTaken};

use crate::answers::{ProcEnd, ProcParts};
use crate::refusal::{MOST_CALLS, refusal, refused_receipt};
use crate::sending::{CallPlace, send};
use no_memory::NoMemory;
use port_lanes::Parcel;
use port_model::{Log, Mail, Signal};
use port_words::busy::SendSeat;
use process_receipts::{How, Receipt};
use std::alloc::Global;
use std::marker::Model;
use std::sync::Wait;
use task_queue::{Idle, Item, SendEnd, TakeEnd};

/// A process with its ports.
pub(crate) struct Sides {
    pub(crate) number: u32,
    pub(crate) mailbox: TakeEnd<Mail>,
    pub(crate) lanes: Vec<SendEnd<Parcel>>,
    pub(crate) seats: Vec<SendSeat>,
    pub(crate) soft: Vec<bool>,
    pub(crate) receipts: Vec<Receipt>,
    pub(crate) undone: u32,
    pub(crate) told: u32,
}

// Its parts go by one call, which is proved once and not in each function that may let one go.
impl Drop for Sides {
    fn drop(self) {
        let Self {
            number: _,
            mailbox: _,
            lanes: _,
            seats: _,
            soft: _,
            receipts: _,
            undone: _,
            told: _,
        } = self;
    }
}

impl Model for Sides {
    ghost use Rattle.process_end.specs.Views.{ProcView, proc_view};
    ghost use Rattle.process_end.specs.Ports.{ArePorts};

    ghost Value = { ProcView };

    ghost view = { λ s. proc_view s.number s.mailbox s.lanes.items s.seats.items s.soft.items s.receipts.items s.undone s.told };

    ghost invariant = { λ s. ArePorts (proc_view s.number s.mailbox s.lanes.items s.seats.items s.soft.items s.receipts.items s.undone s.told) };
}

fn no_receipts(alloc: Global) -> Vec<Receipt>
    ensures { result.items ≡ [] }
{
    Vec::new(alloc)
}

/// A process that has made no call.
pub(crate) fn opened(alloc: Global, parts: ProcParts) -> Sides
    requires { AreParts parts.number parts.mailbox parts.lanes.items parts.seats.items parts.soft.items }
    ensures { result ≡ proc_view parts.number parts.mailbox parts.lanes.items parts.seats.items parts.soft.items [] 0 0 }
{
    let ProcParts {
        number,
        mailbox,
        lanes,
        seats,
        soft,
    } = parts;
    let receipts = no_receipts(alloc);
    Sides {
        number,
        mailbox,
        lanes,
        seats,
        soft,
        receipts,
        undone: 0,
        told: 0,
    }
}

/// Sends a signal to the port at this place.
fn send_at<R: Wait>(
    rt: &R,
    lanes: &mut Vec<SendEnd<Parcel>>,
    seats: &mut Vec<SendSeat>,
    place: CallPlace,
    signal: Signal,
    how: How,
) -> Result<Receipt, NoMemory>
    requires lane { place.port < length lanes.old.items }
    requires seat { place.port < length seats.old.items }
    requires may { (d : LaneEnd) (e : SendKnown) → MaySend signal (slice_index_or lanes.old.items place.port d) (slice_index_or seats.old.items place.port e) }
    requires short { data_size signal ≤ 262143 }
    requires form { is_command signal ≡ false → is_forcing how ≡ false }
    ensures touched { TouchesPort place.port lanes.old.items lanes.new.items seats.old.items seats.new.items }
    ensures receipt { IfOk result (λ receipt. (d : LaneEnd) (calls : ℕ) (soft : Bool) → MayLook calls soft (asked place.line place.port signal how)
        → IsReceiptOf calls soft (length (tasks_of (slice_index_or lanes.old.items place.port d))) (asked place.line place.port signal how) receipt) }
    ensures sent { IfOk result (λ receipt. (d : LaneEnd)
        → HasSent (asked place.line place.port signal how) (slice_index_or lanes.old.items place.port d) (slice_index_or lanes.new.items place.port d) receipt.outcome) }
    ensures steps { IfOk result (λ receipt. (d : SendKnown)
        → HasStepped (asked place.line place.port signal how) (slice_index_or seats.old.items place.port d) (slice_index_or seats.new.items place.port d) receipt.outcome receipt.stat receipt.msgq) }
    ensures missed { OnErr result ((stat : ℕ) × ((d : SendKnown)
        → HasLooked (asked place.line place.port signal how) stat (slice_index_or seats.old.items place.port d) (slice_index_or seats.new.items place.port d))) }
    ensures unsent { OnErr result (lanes.new.items ≡ lanes.old.items) }
{
    let lane = &mut lanes[place.port as usize];
    let seat = &mut seats[place.port as usize];
    send(rt, lane, seat, place, signal, how)
}

/// Takes the next mail.
fn take_mail<R: Wait>(rt: &R, mailbox: &mut TakeEnd<Mail>) -> Option<Mail>
    ensures { HasTaken mailbox.old mailbox.new result }
{
    match mailbox.take(rt) {
        Some(Item { value, .. }) => Some(value),
        None => None,
    }
}

impl Sides {
    /// Makes room for the receipts of so many calls, of which a process makes at most 131,072.
    pub(crate) fn reserve(&mut self, calls: usize) -> Result<(), NoMemory>
        ensures { self.new ≡ self.old }
    {
        self.receipts.reserve(calls.min(MOST_CALLS as usize))?;
        Ok(())
    }

    pub(crate) fn number(&self) -> u32
        ensures { result ≡ self.now.number }
    {
        self.number
    }

    /// Waits a little for mail.
    pub(crate) fn rest<R: Wait>(&self, rt: &R, idle: &Idle) {
        self.mailbox.rest(rt, idle);
    }

    /// Takes the next mail.
    pub(crate) fn mail<R: Wait>(&mut self, rt: &R) -> Option<Mail>
        ensures rest { self.new ≡ record self.old { mailbox = self.new.mailbox } }
        ensures taken { HasTaken self.old.mailbox self.new.mailbox result }
    {
        take_mail(rt, &mut self.mailbox)
    }

    /// Makes a call: sends a signal to a port, with a receipt of what became of it.
    #[inline(always)]
    pub(crate) fn ask<R: Wait>(
        &mut self,
        rt: &R,
        line: u32,
        port: u32,
        signal: Signal,
        how: How,
    ) -> Result<Receipt, NoMemory>
        requires port { port < length self.old.lanes }
        requires free { AllFree self.old }
        requires form { is_command signal ≡ false → is_forcing how ≡ false }
        requires sends { may_send (Process self.old.number) signal ≡ true }
        requires named { (d : LaneEnd) → names_below (slice_index_or self.old.lanes port d).key.processes signal ≡ true }
        ensures made { IfOk result (HasMade self.old (asked line port signal how) self.new) }
        ensures free { IfOk result (λ receipt. is_suspended receipt.outcome ≡ false → AllFree self.new) }
        ensures stopped { IfOk result (λ receipt. (note : StopNote) → is_suspended receipt.outcome ≡ true → note.msgq ≡ unwrap_or receipt.msgq 0 → note.port ≡ port
            → HasStopped (record { proc = self.new; note = note; resumed = false })) }
        ensures missed { OnErr result (HasMissed self.old (asked line port signal how) self.new) }
        ensures still_free { OnErr result (AllFree self.new) }
    {
        self.receipts.reserve(1)?;
        let calls = self.receipts.as_slice().len() as u64 + self.undone as u64;
        let soft = self.soft[port as usize];
        if let Some(outcome) = refusal(calls, soft, &signal, how) {
            let receipt = refused_receipt(line, port, outcome);
            self.receipts.push_reserved(receipt);
            return Ok(receipt);
        }
        let adds = signal.is_command();
        let place = CallPlace { line, port };
        match send_at(rt, &mut self.lanes, &mut self.seats, place, signal, how) {
            Ok(receipt) => {
                self.receipts.push_reserved(receipt);
                Ok(receipt)
            }
            Err(no_memory) => {
                if adds {
                    self.undone += 1;
                }
                Err(no_memory)
            }
        }
    }

    /// What is left of a process that has ended.
    pub(crate) fn into_end(self) -> ProcEnd
        ensures receipts { result.receipts ≡ reverse self.receipts }
        ensures mailbox { result.mailbox ≡ self.mailbox }
        ensures lanes { result.lanes.items ≡ self.lanes }
        ensures seats { result.seats.items ≡ self.seats }
        ensures keeps { ArePorts self }
    {
        let Self {
            number: _,
            mailbox,
            lanes,
            seats,
            soft: _,
            receipts,
            undone: _,
            told: _,
        } = self;
        ProcEnd {
            receipts: Log::of_vec(receipts),
            mailbox,
            lanes,
            seats,
        }
    }
}
