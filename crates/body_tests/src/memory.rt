//! Callbacks that find no memory.
ghost use Rattle.std.specs.Prelude.{◌≡◌, IfOk};

use crate::acts::PortAct;
use crate::rig::{PlayOptions, QueueChoice, Wanted, framed, limited, shows};
use journal_text::{Config, Mode, Reason};
use outside::{MemProgram, MemSpawner};
use port_body::{Driver, NoMemory, StartRefusal};
use port_driver::{DriverCtx, Life, ReplyTo};
use port_model::{IoVec, Piece};
use process_end::How;
use sample_drivers::{Digest, Echo, Store, Tally};
use spawn_driver::{SpawnDriver, spawn_driver};
use std::alloc::Global;
use std::process::Abort;
use std::sync::Wait;
use std::test::Fail;

/// A callback of a driver.
#[derive(Clone, Copy, PartialEq, Eq)]
enum WantingCallback {
    Outputv,
    Control,
    Call,
    ReadyInput,
    ReadyOutput,
    ReadyAsync,
    ProcessExit,
    Flush,
}

/// A driver of whose callbacks one finds no memory.
#[derive(Drop)]
struct Wanting<D: Driver> {
    driver: D,
    callback: WantingCallback,
}

/// A driver that finds no memory in this callback.
fn without_memory<D: Driver>(driver: D, callback: WantingCallback) -> Wanting<D>
    ensures { result.driver ≡ driver }
{
    Wanting { driver, callback }
}

impl<D: Driver> Driver for Wanting<D> {
    ghost kind = { λ w. D.kind w.driver };

    ghost own = { λ w. D.own w.driver };

    ghost stage = { λ w. D.stage w.driver };

    ghost faults = { λ w. D.faults w.driver };

    ghost program = { λ w. D.program w.driver };

    fn name(&self) -> Reason {
        self.driver.name()
    }

    fn soft_busy(&self) -> bool {
        self.driver.soft_busy()
    }

    fn events(&self) -> (u32, u32) {
        self.driver.events()
    }

    fn life(&self) -> Life {
        self.driver.life()
    }

    fn start(
        &mut self,
        alloc: Global,
        ctx: &mut DriverCtx,
        config: &Config,
    ) -> Result<(), StartRefusal> {
        self.driver.start(alloc, ctx, config)
    }

    fn outputv(
        &mut self,
        alloc: Global,
        ctx: &mut DriverCtx,
        payload: &IoVec,
    ) -> Result<(), NoMemory> {
        if self.callback == WantingCallback::Outputv {
            return Err(NoMemory);
        }
        self.driver.outputv(alloc, ctx, payload)
    }

    fn control(
        &mut self,
        alloc: Global,
        ctx: &mut DriverCtx,
        op: u32,
        bytes: &Piece,
    ) -> Result<ReplyTo, NoMemory> {
        if self.callback == WantingCallback::Control {
            return Err(NoMemory);
        }
        self.driver.control(alloc, ctx, op, bytes)
    }

    fn call(
        &mut self,
        alloc: Global,
        ctx: &mut DriverCtx,
        op: u32,
        bytes: &Piece,
    ) -> Result<ReplyTo, NoMemory> {
        if self.callback == WantingCallback::Call {
            return Err(NoMemory);
        }
        self.driver.call(alloc, ctx, op, bytes)
    }

    fn ready_input(
        &mut self,
        alloc: Global,
        ctx: &mut DriverCtx,
        event: u32,
    ) -> Result<(), NoMemory> {
        if self.callback == WantingCallback::ReadyInput {
            return Err(NoMemory);
        }
        self.driver.ready_input(alloc, ctx, event)
    }

    fn ready_output(
        &mut self,
        alloc: Global,
        ctx: &mut DriverCtx,
        event: u32,
    ) -> Result<(), NoMemory> {
        if self.callback == WantingCallback::ReadyOutput {
            return Err(NoMemory);
        }
        self.driver.ready_output(alloc, ctx, event)
    }

    fn ready_async(
        &mut self,
        alloc: Global,
        ctx: &mut DriverCtx,
        number: u64,
        output: &Piece,
    ) -> Result<(), NoMemory> {
        if self.callback == WantingCallback::ReadyAsync {
            return Err(NoMemory);
        }
        self.driver.ready_async(alloc, ctx, number, output)
    }

    fn process_exit(
        &mut self,
        alloc: Global,
        ctx: &mut DriverCtx,
        process: u32,
    ) -> Result<(), NoMemory> {
        if self.callback == WantingCallback::ProcessExit {
            return Err(NoMemory);
        }
        self.driver.process_exit(alloc, ctx, process)
    }

    fn flush(&mut self, alloc: Global, ctx: &mut DriverCtx) -> Result<(), NoMemory> {
        if self.callback == WantingCallback::Flush {
            return Err(NoMemory);
        }
        self.driver.flush(alloc, ctx)
    }

    fn stop_select(&mut self, event: u32) {
        self.driver.stop_select(event);
    }

    fn stop(&mut self) {
        self.driver.stop();
    }
}

/// Acts whose last two turns find no memory, and the rows of the port.
struct BreakingCase {
    acts: &'static [PortAct],
    rows: &'static str,
}

/// Asserts that the last two turns find no memory, that the port has those rows, and that its driver is stopped at the end.
fn breaks<D: Driver, R: Abort + Wait>(
    rt: &R,
    alloc: Global,
    driver: Wanting<D>,
    options: PlayOptions,
    case: &BreakingCase,
) -> Result<(), Fail>
    requires { D.stage driver.driver ≡ Life.Fresh }
{
    let wanted = [
        Wanted::LastActs("no memory\nno memory\n"),
        Wanted::Rows(case.rows),
        Wanted::Stopped,
    ];
    shows(rt, alloc, driver, options, case.acts, &wanted)
}

/// The same of a port whose driver finds no memory in this callback.
fn usual_breaks<D: Driver, R: Abort + Wait>(
    rt: &R,
    alloc: Global,
    driver: D,
    callback: WantingCallback,
    case: &BreakingCase,
) -> Result<(), Fail>
    requires { D.stage driver ≡ Life.Fresh }
{
    let options = limited(QueueChoice::Usual);
    breaks(rt, alloc, without_memory(driver, callback), options, case)
}

/// A command alone.
const ONE_COMMAND: BreakingCase = BreakingCase {
    acts: &[
        PortAct::Command(0, How::Plain, b"x"),
        PortAct::Turn(64),
        PortAct::Turn(64),
    ],
    rows: "",
};

#[test]
fn a_command_that_finds_no_memory_breaks_its_port(rt: HostRuntime) -> Result<(), Fail> {
    let callback = WantingCallback::Outputv;
    usual_breaks(&rt, rt.alloc(), Echo::new(), callback, &ONE_COMMAND)
}

/// A control alone.
const ONE_CONTROL: BreakingCase = BreakingCase {
    acts: &[PortAct::Control(0, 1), PortAct::Turn(64), PortAct::Turn(64)],
    rows: "",
};

#[test]
fn a_control_that_finds_no_memory_breaks_its_port(rt: HostRuntime) -> Result<(), Fail> {
    let callback = WantingCallback::Control;
    usual_breaks(&rt, rt.alloc(), Echo::new(), callback, &ONE_CONTROL)
}

/// A call alone.
const ONE_CALL: BreakingCase = BreakingCase {
    acts: &[PortAct::Call(0, 1), PortAct::Turn(64), PortAct::Turn(64)],
    rows: "",
};

#[test]
fn a_call_that_finds_no_memory_breaks_its_port(rt: HostRuntime) -> Result<(), Fail> {
    let callback = WantingCallback::Call;
    usual_breaks(&rt, rt.alloc(), Echo::new(), callback, &ONE_CALL)
}

/// The end of a process that is watched.
const WATCHED_END: BreakingCase = BreakingCase {
    acts: &[
        PortAct::Control(1, 2),
        PortAct::End(1, b"normal"),
        PortAct::Turn(64),
        PortAct::Turn(64),
    ],
    rows: "h p1 0 control 2 - ; ; watch 1, reply -\n",
};

#[test]
fn the_end_of_a_watched_process_that_finds_no_memory_breaks_its_port(
    rt: HostRuntime,
) -> Result<(), Fail> {
    let callback = WantingCallback::ProcessExit;
    usual_breaks(&rt, rt.alloc(), Tally::new(), callback, &WATCHED_END)
}

/// A close of a port whose driver has a queue.
const FLUSHED_QUEUE: BreakingCase = BreakingCase {
    acts: &[
        PortAct::Command(0, How::Plain, b"x"),
        PortAct::Close(0),
        PortAct::Turn(64),
        PortAct::Turn(64),
    ],
    rows: "h p0 0 command - 78 ; ;\n",
};

#[test]
fn a_flush_that_finds_no_memory_breaks_its_port(rt: HostRuntime) -> Result<(), Fail> {
    let callback = WantingCallback::Flush;
    usual_breaks(&rt, rt.alloc(), Store::new(), callback, &FLUSHED_QUEUE)
}

/// A job that a worker does.
const ONE_JOB: BreakingCase = BreakingCase {
    acts: &[
        PortAct::Command(0, How::Plain, b"\x00\x01x"),
        PortAct::Turn(64),
        PortAct::Work(0),
        PortAct::Turn(64),
        PortAct::Turn(64),
    ],
    rows: "h p0 0 command - 000178 ; ; async 0 0 1 78\n",
};

#[test]
fn a_job_that_finds_no_memory_breaks_its_port(rt: HostRuntime) -> Result<(), Fail> {
    let callback = WantingCallback::ReadyAsync;
    usual_breaks(&rt, rt.alloc(), Digest::new(), callback, &ONE_JOB)
}

/// A driver of a program that gives nothing.
fn program(alloc: Global) -> Result<SpawnDriver<MemSpawner>, Fail>
    ensures { IfOk result (λ driver. driver.life ≡ Life.Fresh) }
{
    let mut spawner = MemSpawner::new(alloc, 0);
    spawner.add(MemProgram::new(alloc, 1))?;
    Ok(spawn_driver(spawner))
}

/// A port of a program, where one wait of the poller finds the write event alone.
const ONE_WRITE: PlayOptions = PlayOptions {
    limits: QueueChoice::Usual,
    mode: Mode::Stream,
    writes: 1,
};

/// The same of a port of that program.
fn program_breaks<R: Abort + Wait>(
    rt: &R,
    alloc: Global,
    callback: WantingCallback,
    options: PlayOptions,
    case: &BreakingCase,
) -> Result<(), Fail> {
    let driver = program(alloc)?;
    breaks(rt, alloc, without_memory(driver, callback), options, case)
}

/// Output of the program.
const ONE_READ: BreakingCase = BreakingCase {
    acts: &[PortAct::Poll, PortAct::Turn(64), PortAct::Turn(64)],
    rows: "",
};

#[test]
fn a_readiness_that_finds_no_memory_breaks_its_port(rt: HostRuntime) -> Result<(), Fail> {
    let callback = WantingCallback::ReadyInput;
    let options = framed(Mode::Stream);
    program_breaks(&rt, rt.alloc(), callback, options, &ONE_READ)
}

/// Room for input of the program.
const ONE_ROOM: BreakingCase = BreakingCase {
    acts: &[
        PortAct::Command(0, How::Plain, b"x"),
        PortAct::Turn(64),
        PortAct::Poll,
        PortAct::Turn(64),
        PortAct::Turn(64),
    ],
    rows: "h p0 0 command - 78 ; ; select 1 w 1\n",
};

#[test]
fn room_that_finds_no_memory_breaks_its_port(rt: HostRuntime) -> Result<(), Fail> {
    let callback = WantingCallback::ReadyOutput;
    program_breaks(&rt, rt.alloc(), callback, ONE_WRITE, &ONE_ROOM)
}
