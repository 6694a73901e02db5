//! Failures of the outside, each alone.
ghost use Rattle.std.specs.Prelude.{◌≡◌};
ghost use Rattle.outside.specs.Programs.{shown};

use crate::checks::{is_right, none_is_wrong};
use crate::port::{ProgramPort, ProgramStep, first_wrong, options, running, spawner, start};
use outside::{MemChild, MemProgram, MemSpawner, NoMemory, SpawnFault, Spawner};
use packet_framing::Mode;
use port_driver::{Config, Driver, StartRefusal};
use spawn_driver::{SpawnDriver, spawn_driver};
use std::alloc::Global;

/// The call of a program that is to fail, the first time that it is made.
#[derive(Clone, Copy)]
enum Planned {
    Offer,
    Fetch,
    Status,
}

/// What starts a program of memory of whose calls one is to fail.
#[derive(Drop)]
struct FaultySpawner {
    spawner: MemSpawner,
    planned: Planned,
}

/// Makes the call fail.
fn plan(child: &mut MemChild, planned: Planned) -> Result<(), NoMemory>
    ensures shown { shown child.new ≡ shown child.old }
    ensures faults { child.new.faults ≡ child.old.faults }
{
    match planned {
        Planned::Offer => child.fail_offer(0),
        Planned::Fetch => child.fail_fetch(0),
        Planned::Status => child.fail_status(0),
    }
}

impl Spawner for FaultySpawner {
    type Program = MemChild;

    ghost faults = { λ s. s.spawner.faults };

    fn start(&mut self, alloc: Global, command: &[u8]) -> Result<MemChild, SpawnFault> {
        let mut child = self.spawner.start(alloc, command)?;
        match plan(&mut child, self.planned) {
            Ok(()) => Ok(child),
            Err(_) => Err(SpawnFault::NoMemory),
        }
    }
}

/// What starts a program that ends at once with the status 3. The planned call is to fail.
fn faulty_spawner(alloc: Global, planned: Planned) -> Option<FaultySpawner> {
    let mut program = MemProgram::new(alloc, 2);
    program.end(3);
    let spawner = spawner(alloc, program)?;
    Some(FaultySpawner { spawner, planned })
}

/// The options of a port that tells the status of its program.
fn telling_status(alloc: Global) -> Option<Config> {
    let mut config = options(alloc, Mode::Stream)?;
    config.exit_status = true;
    Some(config)
}

/// A port of that program, with those options.
fn faulty(alloc: Global, planned: Planned) -> Option<ProgramPort<SpawnDriver<FaultySpawner>>> {
    let spawner = faulty_spawner(alloc, planned)?;
    match &telling_status(alloc) {
        Some(config) => ProgramPort::open(alloc, spawn_driver(spawner), config),
        None => None,
    }
}

/// The number of the first step that goes otherwise in that port, if one does, or of the step behind the last where there is no port.
fn first_wrong_faulty(alloc: Global, planned: Planned, steps: &[ProgramStep<'_>]) -> Option<usize> {
    first_wrong(faulty(alloc, planned), steps)
}

#[test]
fn an_offer_that_fails_empties_the_queue(rt: HostRuntime) {
    let steps = [
        ProgramStep::Takes(b"abc", b"write on;"),
        ProgramStep::Writes(b"failed;fail eio;"),
        ProgramStep::HasQueued(b""),
    ];
    none_is_wrong(&rt, first_wrong_faulty(rt.alloc(), Planned::Offer, &steps));
}

#[test]
fn a_fetch_that_fails_empties_the_queue(rt: HostRuntime) {
    let steps = [
        ProgramStep::Takes(b"abc", b"write on;"),
        ProgramStep::Reads(b"failed;fail eio;"),
        ProgramStep::HasQueued(b""),
    ];
    none_is_wrong(&rt, first_wrong_faulty(rt.alloc(), Planned::Fetch, &steps));
}

#[test]
fn a_status_that_fails_is_not_sent(rt: HostRuntime) {
    let steps = [
        ProgramStep::Takes(b"abc", b"write on;"),
        ProgramStep::Reads(b"end;failed;fail eio;read off;"),
        ProgramStep::HasQueued(b""),
    ];
    none_is_wrong(&rt, first_wrong_faulty(rt.alloc(), Planned::Status, &steps));
}

/// How a fresh driver refuses to start with this command text, if it does.
fn refusal<D: Driver>(alloc: Global, mut driver: D, run: &[u8]) -> Option<StartRefusal> {
    match &running(alloc, run) {
        Some(config) => start(alloc, &mut driver, config).err(),
        None => None,
    }
}

/// What starts a program, the first time in vain.
fn failing_spawner(alloc: Global) -> Option<MemSpawner> {
    let mut spawner = spawner(alloc, MemProgram::new(alloc, 1))?;
    let is_planned = spawner.fail_start(0).is_ok();
    is_planned.then_some(spawner)
}

/// How the driver of a program refuses to start with this command text, if it does.
fn spawn_refusal(alloc: Global, spawner: Option<MemSpawner>, run: &[u8]) -> Option<StartRefusal> {
    match spawner {
        Some(spawner) => refusal(alloc, spawn_driver(spawner), run),
        None => None,
    }
}

/// Whether a start that fails is told as a fault.
fn a_failing_start_is_told(alloc: Global) -> bool {
    spawn_refusal(alloc, failing_spawner(alloc), b"program") == Some(StartRefusal::StartFault)
}

#[test]
fn a_start_that_fails_is_a_fault(rt: HostRuntime) {
    is_right(&rt, a_failing_start_is_told(rt.alloc()));
}

/// Whether a command text of spaces is refused.
fn a_blank_text_is_refused(alloc: Global) -> bool {
    let spawner = spawner(alloc, MemProgram::new(alloc, 1));
    spawn_refusal(alloc, spawner, b"  ") == Some(StartRefusal::Badarg)
}

#[test]
fn a_command_text_without_a_word_is_refused(rt: HostRuntime) {
    is_right(&rt, a_blank_text_is_refused(rt.alloc()));
}
