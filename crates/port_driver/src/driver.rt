ghost use Rattle.std.specs.Prelude.{◌≡◌, ◌≤◌, ◌∷◌, ℕ, [], None, Option, length, OnOk, OnErr, IfOk, IfErr};
ghost use Rattle.std.specs.List.{concat};
ghost use Rattle.driver_model.specs.Calls.{Kind, Own, Outputv, Control, Call, ReadyInput, ReadyOutput, ReadyAsync, ProcessExit, Flush};
ghost use Rattle.driver_model.specs.Drivers.{is_soft, kind_name, read_event_of, refusal_of, write_event_of};
ghost use Rattle.driver_model.specs.Programs.{TellsOfProgram, ToldProgram};
ghost use Rattle.port_driver.specs.Driven.{Did, Began, Ended, Keeps, KeepsRoom, MayCall};
ghost use Rattle.port_driver.specs.Faults.{CountsFailures};
ghost use Rattle.port_driver.specs.Replies.{reply_effect};
ghost use Rattle.port_driver.specs.Starting.{Refuses};

use crate::{Config, DriverCtx, Life, ReplyTo, StartRefusal};
use driver_model::{IoVec, NoMemory, Piece, Reason};
use std::alloc::Global;

/// A driver, by its callbacks: the structure `driver_entry` of the Erlang/OTP manual. Every driver here takes commands by
/// `outputv`.
///
/// A callback that finds no memory may have changed what the driver holds, its program and its context; its kind and its stage stay,
/// and its count of faults doesn't fall. One that answers has counted a fault for each failure that it recorded.
pub trait Driver: Drop {
    ghost use Rattle.port_driver.specs.declared.life.Life.{Life};

    /// Which driver it is.
    ghost kind: { Self → Kind };

    /// The plain data that it keeps beside its queue.
    ghost own: { Self → Own };

    /// Whether it is fresh, started or stopped.
    ghost stage: { Self → Life };

    /// How often its outside failed.
    ghost faults: { Self → ℕ };

    /// Its program, where it has one that was started and of which it tells.
    ghost program: { Self → Option ToldProgram };

    /// The name of its kind: `driver_name` of driver_entry.
    fn name(&self) -> Reason
        ensures { result ≡ kind_name (kind self.now) };

    /// Whether a forced command reaches it while its port is busy: the flag `ERL_DRV_FLAG_SOFT_BUSY` of driver_entry.
    fn soft_busy(&self) -> bool
        ensures { result ≡ is_soft (kind self.now) };

    /// The read event and the write event of its program, 0 and 0 where it has none.
    fn events(&self) -> (u32, u32)
        ensures read { result.0 ≡ read_event_of (own self.now) }
        ensures write { result.1 ≡ write_event_of (own self.now) };

    /// Whether it is fresh, started or stopped. In each of them a driver that serves or served a program tells of that program.
    fn life(&self) -> Life
        ensures stage { result ≡ stage self.now }
        ensures told { TellsOfProgram (own self.now) (program self.now) };

    /// Begins to serve a port, with an empty queue, no event and no job: `start` of driver_entry. One that refuses has stopped a program
    /// that it had started.
    fn start(
        &mut self,
        alloc: Global,
        ctx: &mut DriverCtx,
        config: &Config,
    ) -> Result<(), StartRefusal>
        requires fresh { stage self.old ≡ Life.Fresh }
        requires queue { ctx.old.queue ≡ [] }
        requires events { ctx.old.held ≡ [] }
        requires jobs { ctx.old.next_job ≡ 0 }
        requires outside { length ctx.old.outside ≤ 524288 }
        requires effects { length ctx.old.effects ≤ 524288 }
        ensures kind { kind self.new ≡ kind self.old }
        ensures faults { faults self.old ≤ faults self.new }
        ensures started { OnOk result (stage self.new ≡ Life.Started) }
        ensures starts { OnOk result (refusal_of (kind self.old) config.now ≡ None) }
        ensures refused { OnErr result (stage self.new ≡ Life.Stopped) }
        ensures refusal { IfErr result (Refuses (kind self.old) config.now (faults self.old) (faults self.new)) }
        ensures room { KeepsRoom ctx.old ctx.new }
        ensures began { OnOk result (Began (kind self.old) config.now (own self.new) (program self.new) ctx.old ctx.new) };

    /// Takes the data of a command: `outputv` of driver_entry.
    fn outputv(
        &mut self,
        alloc: Global,
        ctx: &mut DriverCtx,
        payload: &IoVec,
    ) -> Result<(), NoMemory>
        requires called { MayCall (stage self.old) ctx.old }
        ensures kept { Keeps (kind self.old) (kind self.new) (faults self.old) (faults self.new) (stage self.new) ctx.old ctx.new }
        ensures counted { OnOk result (CountsFailures ctx.old.outside ctx.new.outside (faults self.old) (faults self.new)) }
        ensures did { OnOk result (Did (kind self.old) (Outputv (concat payload.now)) (own self.old) (own self.new) (program self.old) (program self.new) ctx.old ctx.new []) };

    /// Makes an operation on some bytes, and answers: `control` of driver_entry.
    fn control(
        &mut self,
        alloc: Global,
        ctx: &mut DriverCtx,
        op: u32,
        bytes: &Piece,
    ) -> Result<ReplyTo, NoMemory>
        requires called { MayCall (stage self.old) ctx.old }
        ensures kept { Keeps (kind self.old) (kind self.new) (faults self.old) (faults self.new) (stage self.new) ctx.old ctx.new }
        ensures counted { OnOk result (CountsFailures ctx.old.outside ctx.new.outside (faults self.old) (faults self.new)) }
        ensures did { IfOk result (λ answer. Did (kind self.old) (Control op bytes.now) (own self.old) (own self.new) (program self.old) (program self.new) ctx.old ctx.new (reply_effect answer ∷ [])) };

    /// Makes an operation on the external form of a term, and answers with one: `call` of driver_entry.
    fn call(
        &mut self,
        alloc: Global,
        ctx: &mut DriverCtx,
        op: u32,
        bytes: &Piece,
    ) -> Result<ReplyTo, NoMemory>
        requires called { MayCall (stage self.old) ctx.old }
        ensures kept { Keeps (kind self.old) (kind self.new) (faults self.old) (faults self.new) (stage self.new) ctx.old ctx.new }
        ensures counted { OnOk result (CountsFailures ctx.old.outside ctx.new.outside (faults self.old) (faults self.new)) }
        ensures did { IfOk result (λ answer. Did (kind self.old) (Call op bytes.now) (own self.old) (own self.new) (program self.old) (program self.new) ctx.old ctx.new (reply_effect answer ∷ [])) };

    /// Is told that there is something to read: `ready_input` of driver_entry.
    fn ready_input(
        &mut self,
        alloc: Global,
        ctx: &mut DriverCtx,
        event: u32,
    ) -> Result<(), NoMemory>
        requires called { MayCall (stage self.old) ctx.old }
        ensures kept { Keeps (kind self.old) (kind self.new) (faults self.old) (faults self.new) (stage self.new) ctx.old ctx.new }
        ensures counted { OnOk result (CountsFailures ctx.old.outside ctx.new.outside (faults self.old) (faults self.new)) }
        ensures did { OnOk result (Did (kind self.old) (ReadyInput event) (own self.old) (own self.new) (program self.old) (program self.new) ctx.old ctx.new []) };

    /// Is told that there is room to write: `ready_output` of driver_entry.
    fn ready_output(
        &mut self,
        alloc: Global,
        ctx: &mut DriverCtx,
        event: u32,
    ) -> Result<(), NoMemory>
        requires called { MayCall (stage self.old) ctx.old }
        ensures kept { Keeps (kind self.old) (kind self.new) (faults self.old) (faults self.new) (stage self.new) ctx.old ctx.new }
        ensures counted { OnOk result (CountsFailures ctx.old.outside ctx.new.outside (faults self.old) (faults self.new)) }
        ensures did { OnOk result (Did (kind self.old) (ReadyOutput event) (own self.old) (own self.new) (program self.old) (program self.new) ctx.old ctx.new []) };

    /// Is told that its job of this number was done, with this output: `ready_async` of driver_entry.
    fn ready_async(
        &mut self,
        alloc: Global,
        ctx: &mut DriverCtx,
        number: u64,
        output: &Piece,
    ) -> Result<(), NoMemory>
        requires called { MayCall (stage self.old) ctx.old }
        ensures kept { Keeps (kind self.old) (kind self.new) (faults self.old) (faults self.new) (stage self.new) ctx.old ctx.new }
        ensures counted { OnOk result (CountsFailures ctx.old.outside ctx.new.outside (faults self.old) (faults self.new)) }
        ensures did { OnOk result (Did (kind self.old) (ReadyAsync number output.now) (own self.old) (own self.new) (program self.old) (program self.new) ctx.old ctx.new []) };

    /// Is told of the end of a process that it watches: `process_exit` of driver_entry.
    fn process_exit(
        &mut self,
        alloc: Global,
        ctx: &mut DriverCtx,
        process: u32,
    ) -> Result<(), NoMemory>
        requires called { MayCall (stage self.old) ctx.old }
        ensures kept { Keeps (kind self.old) (kind self.new) (faults self.old) (faults self.new) (stage self.new) ctx.old ctx.new }
        ensures counted { OnOk result (CountsFailures ctx.old.outside ctx.new.outside (faults self.old) (faults self.new)) }
        ensures did { OnOk result (Did (kind self.old) (ProcessExit process) (own self.old) (own self.new) (program self.old) (program self.new) ctx.old ctx.new []) };

    /// Sends or puts away what is queued, as its port closes: `flush` of driver_entry.
    fn flush(&mut self, alloc: Global, ctx: &mut DriverCtx) -> Result<(), NoMemory>
        requires called { MayCall (stage self.old) ctx.old }
        ensures kept { Keeps (kind self.old) (kind self.new) (faults self.old) (faults self.new) (stage self.new) ctx.old ctx.new }
        ensures counted { OnOk result (CountsFailures ctx.old.outside ctx.new.outside (faults self.old) (faults self.new)) }
        ensures did { OnOk result (Did (kind self.old) Flush (own self.old) (own self.new) (program self.old) (program self.new) ctx.old ctx.new []) };

    /// Is told that an event that it gave up is waited for no more: `stop_select` of driver_entry.
    fn stop_select(&mut self, event: u32)
        ensures kind { kind self.new ≡ kind self.old }
        ensures faults { faults self.old ≤ faults self.new }
        ensures stage { stage self.new ≡ stage self.old }
        ensures own { own self.new ≡ own self.old }
        ensures program { program self.new ≡ program self.old };

    /// Ends the service of the port: `stop` of driver_entry.
    fn stop(&mut self)
        requires started { stage self.old ≡ Life.Started }
        ensures kind { kind self.new ≡ kind self.old }
        ensures faults { faults self.old ≤ faults self.new }
        ensures stage { stage self.new ≡ Life.Stopped }
        ensures told { TellsOfProgram (own self.new) (program self.new) }
        ensures ended { Ended (kind self.old) (own self.old) (own self.new) (program self.old) (program self.new) };
}
