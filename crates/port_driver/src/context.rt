ghost use Rattle.std.specs.Prelude.{◌≡◌, ◌<◌, ◌≤◌, ◌+◌, ◌++◌, ◌∷◌, [], drop, length, vec_len, true, false, OnOk, OnErr, IfOk, IfErr};
ghost use Rattle.std.specs.Borrow.{sem};
ghost use Rattle.std.specs.List.{concat};
ghost use Rattle.driver_queue.specs.EnqFault.{EnqFails};
ghost use Rattle.driver_model.specs.port_model.declared.effect.Effect.TheVariants.{Busy, Message, Watch, Eof, Status, Select, Unuse, Async, Fail};
ghost use Rattle.driver_model.specs.Calls.{is_empty};
ghost use Rattle.driver_model.specs.Digest.{is_code};
ghost use Rattle.driver_model.specs.Drivers.{is_held, with_event, without_event};
ghost use Rattle.port_driver.specs.Context.{did, is_full, SelectFails};
ghost use Rattle.port_driver.specs.Lent.{LendsQueue};
ghost use Rattle.port_driver.specs.Replies.{reply_effect};

use crate::ReplyTo;
use driver_model::{Dir, Effect, Flag, IoVec, Items, NoMemory, Outside, Piece, Reason};
use driver_queue::{DeqPast, DriverQueue, EnqFault};
use std::alloc::Global;
use std::marker::Model;

/// The most events that a driver holds.
pub const MAX_EVENTS: usize = 64;

/// Why an event wasn't selected.
#[derive(Clone, Copy, Debug, PartialEq, Eq)]
pub enum SelectFault {
    /// The driver holds so many other events.
    Full { held: u32 },
    NoMemory,
}

/// What a callback of a driver is handed: who called, the driver's queue and events, and lists of what it does and of what the outside
/// answered, in their order.
#[derive(Drop)]
pub struct DriverCtx {
    caller: u32,
    next_job: u64,
    held: Vec<u32>,
    queue: DriverQueue,
    outside: Vec<Outside>,
    effects: Vec<Effect>,
}

impl Model for DriverCtx {
    ghost use Rattle.std.specs.Prelude.{◌≤◌, vec_len};
    ghost use Rattle.std.specs.List.{concat};
    ghost use Rattle.port_driver.specs.Context.{Context};

    ghost Value = { Context };

    ghost view = { λ c. record { caller = c.caller; next_job = c.next_job; held = c.held.items; queue = concat c.queue.segments; outside = c.outside.items; effects = c.effects.items } };

    ghost invariant = { λ c. (vec_len c.outside ≤ 1048576) × (vec_len c.effects ≤ 1048576) × (vec_len c.held ≤ 64) };
}

/// Whether the event is among these.
fn is_used(held: &[u32], event: u32) -> bool
    ensures { result ≡ is_held event held.now }
{
    held.iter().any(|other| *other == event)
}

/// Takes the event out.
fn give_up(held: &mut Vec<u32>, event: u32)
    ensures items { held.new.items ≡ without_event event held.old.items }
    ensures len { vec_len held.new ≤ vec_len held.old }
{
    held.retain(|other| *other != event);
}

/// The bytes of a queue as one piece, which its segments become.
fn joined(queue: &mut DriverQueue) -> Result<Piece, NoMemory>
    ensures ok { IfOk result (λ piece. piece ≡ concat queue.old.segments) }
    ensures bytes { concat queue.new.segments ≡ concat queue.old.segments }
{
    let bytes = queue.to_piece()?;
    if queue.peekq(1).is_some() {
        let kept = bytes.share()?;
        queue.reserve(1)?;
        queue.clear();
        match queue.enq(kept) {
            Ok(()) => {}
            Err(_) => unreachable!(),
        }
    }
    Ok(bytes)
}

impl DriverCtx {
    /// A context in which nothing was done, of a driver that holds these events, by rising number, and whose next job has this number. Where
    /// memory is wanting the queue comes back.
    pub fn new(
        alloc: Global,
        caller: u32,
        next_job: u64,
        held: &[u32],
        queue: DriverQueue,
    ) -> Result<DriverCtx, (DriverQueue, NoMemory)>
        requires { length held.now ≤ MAX_EVENTS }
        ensures ok { IfOk result (λ ctx. ctx ≡ record { caller = caller; next_job = next_job; held = held.now; queue = concat queue.segments; outside = []; effects = [] }) }
        ensures err { IfErr result (λ refused. refused.0 ≡ queue) }
    {
        let mut events = Vec::new(alloc);
        if events.extend_from_slice(held).is_err() {
            return Err((queue, NoMemory));
        }
        Ok(DriverCtx {
            caller,
            next_job,
            held: events,
            queue,
            outside: Vec::new(alloc),
            effects: Vec::new(alloc),
        })
    }

    /// The queue, the outside's answers and the effects, these in their order.
    pub fn finish(self) -> (DriverQueue, Items<Outside>, Items<Effect>)
        ensures queue { concat result.0.segments ≡ self.queue }
        ensures outside { result.1 ≡ self.outside }
        ensures effects { result.2 ≡ self.effects }
        ensures held { length self.held ≤ 64 }
    {
        let DriverCtx {
            queue,
            outside,
            effects,
            ..
        } = self;
        (queue, Items::of_vec(outside), Items::of_vec(effects))
    }

    /// The process whose signal is handled, or else the owner of the port: `driver_caller` of erl_driver.
    pub fn caller(&self) -> u32
        ensures { result ≡ self.now.caller }
    {
        self.caller
    }

    /// The number of the next job.
    pub fn next_job(&self) -> u64
        ensures { result ≡ self.now.next_job }
    {
        self.next_job
    }

    /// The effects so far, in their order.
    pub fn effects(&self) -> &[Effect]
        ensures { result.now ≡ self.now.effects }
    {
        &self.effects
    }

    /// The driver's queue, to be read: its size is `driver_sizeq` of erl_driver, its segments are what `driver_peekq` shows.
    pub fn queue(&self) -> &DriverQueue
        ensures { concat result.now.segments ≡ self.now.queue }
    {
        &self.queue
    }

    /// Whether no byte is queued.
    pub fn is_drained(&self) -> bool
        ensures { result ≡ is_empty self.now.queue }
    {
        self.queue.sizeq() == 0
    }

    /// Adds an effect. The first one gets room for itself alone: most callbacks have no second one, and the list is kept in the row.
    #[inline(always)]
    fn add(&mut self, effect: Effect) -> Result<(), NoMemory>
        requires { length self.old.effects < 1048576 }
        ensures ok { OnOk result (self.new ≡ did self.old effect) }
        ensures err { OnErr result (self.new ≡ self.old) }
    {
        if self.effects.is_empty() {
            self.effects.reserve_exact(1)?;
        }
        self.effects.push(effect)?;
        Ok(())
    }

    /// Sends data to the owner of the port: `driver_output` of erl_driver. The bytes are shared and not copied.
    pub fn send(&mut self, flag: Flag, bytes: &Piece) -> Result<(), NoMemory>
        requires { length self.old.effects < 1048576 }
        ensures ok { OnOk result (self.new ≡ did self.old (Message flag bytes.now)) }
        ensures err { OnErr result (self.new ≡ self.old) }
    {
        let bytes = bytes.share()?;
        self.add(Effect::Message { flag, bytes })
    }

    /// Tells the owner that the program's output has ended, as `driver_output_eof` of erl_driver's ports of programs.
    pub fn send_eof(&mut self) -> Result<(), NoMemory>
        requires { length self.old.effects < 1048576 }
        ensures ok { OnOk result (self.new ≡ did self.old Eof) }
        ensures err { OnErr result (self.new ≡ self.old) }
    {
        self.add(Effect::Eof)
    }

    /// Tells the owner the program's status.
    pub fn send_status(&mut self, status: i32) -> Result<(), NoMemory>
        requires { length self.old.effects < 1048576 }
        ensures ok { OnOk result (self.new ≡ did self.old (Status status)) }
        ensures err { OnErr result (self.new ≡ self.old) }
    {
        self.add(Effect::Status(status))
    }

    /// Says whether the port takes no commands from now on: `set_busy_port` of erl_driver. It is recorded also where it changes nothing.
    pub fn set_busy(&mut self, busy: bool) -> Result<(), NoMemory>
        requires { length self.old.effects < 1048576 }
        ensures ok { OnOk result (self.new ≡ did self.old (Busy busy)) }
        ensures err { OnErr result (self.new ≡ self.old) }
    {
        self.add(Effect::Busy(busy))
    }

    /// Has the driver told of the end of a process: `driver_monitor_process` of erl_driver.
    pub fn watch(&mut self, process: u32) -> Result<(), NoMemory>
        requires { length self.old.effects < 1048576 }
        ensures ok { OnOk result (self.new ≡ did self.old (Watch process)) }
        ensures err { OnErr result (self.new ≡ self.old) }
    {
        self.add(Effect::Watch(process))
    }

    /// Ends the port for this reason: `driver_failure_atom` of erl_driver. The callback goes on.
    pub fn fail(&mut self, reason: Reason) -> Result<(), NoMemory>
        requires { length self.old.effects < 1048576 }
        ensures ok { OnOk result (self.new ≡ did self.old (Fail reason)) }
        ensures err { OnErr result (self.new ≡ self.old) }
    {
        self.add(Effect::Fail(reason))
    }

    /// Says whether the driver is called when the event is ready in this direction: `driver_select` of erl_driver. The first call uses the event. It
    /// is `Full` exactly where the driver holds 64 other events.
    pub fn select(&mut self, event: u32, dir: Dir, on: bool) -> Result<(), SelectFault>
        requires { length self.old.effects < 1048576 }
        ensures ok { OnOk result (self.new ≡ record (did self.old (Select event dir on)) { held = with_event event self.old.held }) }
        ensures room { OnOk result (is_full event self.old.held ≡ false) }
        ensures fault { IfErr result (SelectFails event self.old.held) }
        ensures err { OnErr result (self.new ≡ self.old) }
    {
        if is_used(self.held.as_slice(), event) {
            return match self.add(Effect::Select { event, dir, on }) {
                Ok(()) => Ok(()),
                Err(NoMemory) => Err(SelectFault::NoMemory),
            };
        }
        if self.held.len() >= MAX_EVENTS {
            return Err(SelectFault::Full { held: 64 });
        }
        if self.held.push(event).is_err() {
            return Err(SelectFault::NoMemory);
        }
        if self
            .effects
            .push(Effect::Select { event, dir, on })
            .is_err()
        {
            let _ = self.held.pop();
            return Err(SelectFault::NoMemory);
        }
        Ok(())
    }

    /// Gives an event up: `driver_select` of erl_driver with `ERL_DRV_USE` and `on` 0. The driver is told by `stop_select` when it is waited for
    /// no more.
    pub fn unuse(&mut self, event: u32) -> Result<(), NoMemory>
        requires { length self.old.effects < 1048576 }
        ensures ok { OnOk result (self.new ≡ record (did self.old (Unuse event)) { held = without_event event self.old.held }) }
        ensures err { OnErr result (self.new ≡ self.old) }
    {
        self.add(Effect::Unuse(event))?;
        give_up(&mut self.held, event);
        Ok(())
    }

    /// Hands a job to the workers and answers its number: `driver_async` of erl_driver. Jobs of one key are done in order.
    pub fn submit(&mut self, key: u32, code: u8, input: &Piece) -> Result<u64, NoMemory>
        requires room { length self.old.effects < 1048576 }
        requires code { is_code code ≡ true }
        ensures number { IfOk result (λ number. number ≡ self.old.next_job) }
        ensures ok { OnOk result (self.new ≡ record (did self.old (Async self.old.next_job key code input.now)) { next_job = self.old.next_job + 1 }) }
        ensures err { OnErr result (self.new ≡ self.old) }
    {
        let number = self.next_job;
        let Some(next_job) = number.checked_add(1) else {
            return Err(NoMemory);
        };
        let input = input.share()?;
        self.add(Effect::Async {
            number,
            key,
            code,
            input,
        })?;
        self.next_job = next_job;
        Ok(number)
    }

    /// Records what the outside answered to a call that the driver made.
    pub fn answered(&mut self, answer: Outside) -> Result<(), NoMemory>
        requires { length self.old.outside < 1048576 }
        ensures ok { OnOk result (self.new ≡ record self.old { outside = self.old.outside ++ answer ∷ [] }) }
        ensures err { OnErr result (self.new ≡ self.old) }
    {
        self.outside.push(answer)?;
        Ok(())
    }

    /// Records what a driver answered to a control or a call.
    pub fn reply(&mut self, answer: ReplyTo) -> Result<(), NoMemory>
        requires { length self.old.effects < 1048576 }
        ensures ok { OnOk result (self.new ≡ did self.old (reply_effect answer)) }
        ensures err { OnErr result (self.new ≡ self.old) }
    {
        let effect = match answer {
            ReplyTo::Bytes(bytes) => Effect::Reply(bytes),
            ReplyTo::Badarg => Effect::ReplyBadarg,
        };
        self.add(effect)
    }

    /// Puts a vector's bytes, but for the first `skip`, behind those of the queue: `driver_enqv` of erl_driver. They are shared.
    pub fn enqv(&mut self, vector: &IoVec, skip: u64) -> Result<(), EnqFault>
        ensures ok { OnOk result (self.new ≡ record self.old { queue = self.old.queue ++ drop skip (concat vector.now) }) }
        ensures within { OnOk result (skip ≤ length (concat vector.now)) }
        ensures err { OnErr result (self.new ≡ self.old) }
        ensures fault { IfErr result (EnqFails skip (length (concat vector.now))) }
    {
        self.queue.enqv(vector, skip)
    }

    /// Puts bytes behind those of the queue: `driver_enq_bin` of erl_driver.
    pub fn enq(&mut self, piece: Piece) -> Result<(), NoMemory>
        ensures ok { OnOk result (self.new ≡ record self.old { queue = self.old.queue ++ piece }) }
        ensures err { OnErr result (self.new ≡ self.old) }
    {
        let Ok(()) = self.queue.enq(piece) else {
            return Err(NoMemory);
        };
        Ok(())
    }

    /// Puts bytes in front of those of the queue: `driver_pushq_bin` of erl_driver.
    pub fn pushq(&mut self, piece: Piece) -> Result<(), NoMemory>
        ensures ok { OnOk result (self.new ≡ record self.old { queue = piece ++ self.old.queue }) }
        ensures err { OnErr result (self.new ≡ self.old) }
    {
        match self.queue.pushq(piece) {
            Ok(()) => Ok(()),
            Err((_, refusal)) => Err(refusal),
        }
    }

    /// Puts a vector's bytes, but for the first `skip`, in front of those of the queue, in their order: `driver_pushqv` of erl_driver. They are
    /// shared.
    pub fn pushqv(&mut self, vector: &IoVec, skip: u64) -> Result<(), EnqFault>
        ensures ok { OnOk result (self.new ≡ record self.old { queue = drop skip (concat vector.now) ++ self.old.queue }) }
        ensures within { OnOk result (skip ≤ length (concat vector.now)) }
        ensures err { OnErr result (self.new ≡ self.old) }
        ensures fault { IfErr result (EnqFails skip (length (concat vector.now))) }
    {
        self.queue.pushqv(vector, skip)
    }

    /// Makes room in the queue for so many more segments, and lends the queue: the next `pieces` calls of its `enq` or `pushq` succeed, as long as
    /// it stays below 2^63 bytes. What it is left with is the queue of the context.
    pub fn reserve(&mut self, pieces: usize) -> Result<&mut DriverQueue, NoMemory>
        ensures* writes_back { sem 𝓛 (LendsQueue self.entry result) }
        ensures bytes { IfOk result (λ queue. concat queue.now.segments ≡ self.old.queue) }
        ensures room { IfOk result (λ queue. pieces ≤ queue.now.room) }
    {
        self.queue.reserve(pieces)?;
        Ok(&mut self.queue)
    }

    /// Drops the first bytes of the queue: `driver_deq` of erl_driver. It takes no memory.
    pub fn deq(&mut self, count: u64) -> Result<(), DeqPast>
        ensures ok { OnOk result (self.new ≡ record self.old { queue = drop count self.old.queue }) }
        ensures within { OnOk result (count ≤ length self.old.queue) }
        ensures err { OnErr result (self.new ≡ self.old) }
        ensures past { IfErr result (λ refusal. (length self.old.queue < count) × (refusal.size ≡ length self.old.queue)) }
    {
        self.queue.deq(count)
    }

    /// All bytes of the queue as one piece. Segments are joined in the queue too, so that the bytes are copied once, whatever asks for them
    /// again, and shared from then on.
    pub fn join_queue(&mut self) -> Result<Piece, NoMemory>
        ensures ok { IfOk result (λ piece. piece ≡ self.old.queue) }
        ensures same { self.new ≡ self.old }
    {
        joined(&mut self.queue)
    }

    /// Empties the queue. It takes no memory.
    pub fn clear_queue(&mut self)
        ensures { self.new ≡ record self.old { queue = [] } }
    {
        self.queue.clear();
    }
}
