ghost use Rattle.std.specs.Prelude.{◌≡◌, [], IfOk};

use crate::counts::Counts;
use crate::ends::{InputEnd, OutputEnd};
use crate::pipe_server::PipeServer;
use crate::real_child::{Piped, RealChild};
use crate::threads::{InputPipe, OutputPipe, Pipes};
use crossbeam_channel::{bounded, unbounded};
use outside::{ByteLog, FaultCount, NoMemory, SpawnFault, Spawner};
use std::alloc::Global;
use std::io::ErrorKind;
use std::process::{self, ChildStdin, ChildStdout, Command, Processes, Stdio, SystemProcess};
use std::sync::Wait;

/// How many chunks of an output wait to be fetched before no more is read of it.
const CHUNKS: usize = 4;

/// How many pieces of an input wait to be written before no more is taken of it.
const PIECES: u64 = 4;

/// Starts programs of the machine, each with piped input and output.
///
/// Its children have the same two events, so one is started where the one before it was stopped or has ended.
#[derive(Drop)]
pub struct RealSpawner<R> {
    rt: R,
    pipes: PipeServer,
    events: (u32, u32),
    faults: FaultCount,
}

impl<R: Drop> RealSpawner<R> {
    /// A spawner whose children have these events of the poll set, that of their output first, and these pipes.
    pub fn new(
        rt: R,
        pipes: &PipeServer,
        read_event: u32,
        write_event: u32,
    ) -> Result<Self, NoMemory>
        ensures { IfOk result (λ spawner. spawner.faults ≡ 0) }
    {
        Ok(RealSpawner {
            rt,
            pipes: pipes.share()?,
            events: (read_event, write_event),
            faults: FaultCount::new(),
        })
    }
}

/// The program that a command text names, started with its further words. The words stand between spaces.
fn start_program<R: Processes<Started = SystemProcess>>(
    rt: &R,
    alloc: Global,
    command: &[u8],
) -> Result<process::Child, SpawnFault> {
    let Ok(text) = str::from_utf8(command) else {
        return Err(SpawnFault::Failed);
    };
    let mut words = text.split(' ').filter(|word| !word.is_empty());
    let Some(program) = words.next() else {
        return Err(SpawnFault::Failed);
    };
    let mut command = Command::new(alloc, program)?;
    for word in words {
        command.arg(word)?;
    }
    command.stdin(Stdio::piped());
    command.stdout(Stdio::piped());
    match command.spawn(rt) {
        Ok(program) => Ok(program),
        Err(error) if error.kind() == ErrorKind::OutOfMemory => Err(SpawnFault::NoMemory),
        Err(_) => Err(SpawnFault::Failed),
    }
}

/// Has both pipes of a program served, and waits until it is told whether they are.
fn serve<R: Wait>(
    rt: &R,
    alloc: Global,
    server: &PipeServer,
    events: (u32, u32),
    mut program: process::Child,
) -> Result<Piped, SpawnFault>
    ensures { IfOk result (λ piped. (piped.input.given ≡ []) × (piped.output.given ≡ [])) }
{
    let (Some(stdin), Some(stdout)) = (program.stdin.take(), program.stdout.take()) else {
        return Err(SpawnFault::Failed);
    };
    let (messages, outputs) = bounded(alloc, CHUNKS)?;
    let (pieces, inputs) = unbounded(alloc)?;
    let (served, answers) = bounded(alloc, 1)?;
    let output = OutputEnd::new(alloc, outputs, share(server)?, events.0);
    let input = InputEnd::new(pieces, share(server)?, events.1);
    server.counts().set(events.0, 0);
    server.counts().set(events.1, PIECES);
    let reading = OutputPipe {
        stdout,
        messages,
        event: events.0,
    };
    let writing = InputPipe {
        stdin,
        pieces: inputs,
        event: events.1,
    };
    let pipes = Pipes {
        reading,
        writing,
        served,
    };
    if !server.send(rt, pipes) || !matches!(answers.recv(rt), Ok(true)) {
        return Err(SpawnFault::Failed);
    }
    Ok(Piped {
        program,
        output,
        input,
    })
}

/// The counts of the events, for an end of a pipe.
fn share(server: &PipeServer) -> Result<Counts, SpawnFault> {
    server.counts().share().map_err(|_| SpawnFault::NoMemory)
}

impl<R: Processes<Started = SystemProcess> + Wait + Copy + Send + Drop> Spawner for RealSpawner<R> {
    type Program = RealChild<R>;

    ghost faults = { λ s. s.faults };

    fn start(&mut self, alloc: Global, command: &[u8]) -> Result<RealChild<R>, SpawnFault> {
        let piped = match start_program(&self.rt, alloc, command) {
            Ok(program) => serve(&self.rt, alloc, &self.pipes, self.events, program),
            Err(fault) => Err(fault),
        };
        match piped {
            Ok(piped) => Ok(RealChild::new(self.rt, alloc, piped, self.events, command)),
            Err(SpawnFault::NoMemory) => Err(SpawnFault::NoMemory),
            Err(SpawnFault::Failed) => {
                self.faults.rise();
                Err(SpawnFault::Failed)
            }
        }
    }
}
