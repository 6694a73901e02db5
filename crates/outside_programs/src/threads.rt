//! The threads behind the pipes of children: each reads what one child writes, or writes what it reads.
use crate::counts::Counts;
use crate::growing::{CHUNK, GrowingChunk};
use crossbeam_channel::{Receiver, Sender};
use outside::NoMemory;
use std::alloc::Global;
use std::io::{Read, Write};
use std::process::{ChildStdin, ChildStdout};
use std::sync::Wait;
use std::thread;
use std::thread::Threads;

/// What a reading thread tells of a child's output. Want of memory for a chunk is a failure.
#[derive(Drop)]
pub(crate) enum OutputPart {
    Chunk(GrowingChunk),
    End,
    Failed,
}

/// The output of a child that is to be read, and where what it gives goes.
#[derive(Drop)]
pub(crate) struct OutputPipe {
    pub(crate) stdout: ChildStdout,
    pub(crate) messages: Sender<OutputPart>,
    pub(crate) event: u32,
}

/// The input of a child that is to be written, and where the pieces come from.
#[derive(Drop)]
pub(crate) struct InputPipe {
    pub(crate) stdin: ChildStdin,
    pub(crate) pieces: Receiver<Vec<u8>>,
    pub(crate) event: u32,
}

/// Both pipes of a child, and where it is told whether they are served.
#[derive(Drop)]
pub(crate) struct Pipes {
    pub(crate) reading: OutputPipe,
    pub(crate) writing: InputPipe,
    pub(crate) served: Sender<bool>,
}

/// Keeps what was read: in the chunk that was told of last, where that grows by it, or else in a new one, which is to be told of.
fn keep<R: Wait>(
    rt: &R,
    alloc: Global,
    last: &mut Option<GrowingChunk>,
    bytes: &[u8],
) -> Result<Option<GrowingChunk>, NoMemory> {
    if let Some(chunk) = last {
        if chunk.has_taker() && chunk.append(rt, bytes) {
            return Ok(None);
        }
    }
    let chunk = GrowingChunk::new(alloc, bytes)?;
    *last = Some(chunk.share()?);
    Ok(Some(chunk))
}

/// Reads once, and keeps what was read. Answers what is to be told, where there is something. The bytes are read into the buffer, and copied out of it, so that
/// they take no more memory than they have bytes.
fn read_once<R: Wait>(
    rt: &R,
    alloc: Global,
    stdout: &mut ChildStdout,
    last: &mut Option<GrowingChunk>,
    buffer: &mut [u8],
) -> Option<OutputPart> {
    match stdout.read(buffer) {
        Ok(0) => Some(OutputPart::End),
        Ok(count) => match keep(rt, alloc, last, &buffer[..count]) {
            Ok(Some(chunk)) => Some(OutputPart::Chunk(chunk)),
            Ok(None) => None,
            Err(NoMemory) => Some(OutputPart::Failed),
        },
        Err(_) => Some(OutputPart::Failed),
    }
}

/// Reads one output to its end, or until nobody takes it any more.
fn read_output<R: Wait>(rt: &R, alloc: Global, counts: &Counts, reading: OutputPipe) {
    let OutputPipe {
        mut stdout,
        messages,
        event,
    } = reading;
    let Ok(mut buffer) = vec![in alloc; 0u8; CHUNK] else {
        // Nobody sends messages any more, which is told as a failure.
        drop(messages);
        counts.raise(event);
        return;
    };
    let mut last = None;
    for _ in rt.forever() {
        let Some(output) = read_once(rt, alloc, &mut stdout, &mut last, buffer.as_mut_slice())
        else {
            continue;
        };
        let is_last = !matches!(&output, OutputPart::Chunk(_));
        if messages.send(rt, output).is_err() {
            return;
        }
        counts.raise(event);
        if is_last {
            return;
        }
    }
}

/// Writes one child's pieces until no more come, or until it takes none: its pieces have no receiver then.
fn write_input<R: Wait>(rt: &R, counts: &Counts, writing: InputPipe) {
    let InputPipe {
        mut stdin,
        pieces,
        event,
    } = writing;
    for _ in rt.forever() {
        let Ok(piece) = pieces.recv(rt) else {
            return;
        };
        if stdin.write_all(piece.as_slice()).is_err() {
            break;
        }
        counts.raise(event);
    }
    drop(pieces);
    counts.raise(event);
}

/// Makes two threads for the pipes of each child that come, until all spawners are gone, and tells whether they could be made.
pub(crate) fn serve_pipes<R: Threads + Wait + Copy + Send + Sync + Drop + 'static>(
    rt: &R,
    alloc: Global,
    counts: &Counts,
    children: &Receiver<Pipes>,
) {
    for _ in rt.forever() {
        let Ok(pipes) = children.recv(rt) else {
            return;
        };
        let Pipes {
            reading,
            writing,
            served,
        } = pipes;
        let is_served = serve(*rt, alloc, counts, reading, writing).is_ok();
        let _ = served.send(rt, is_served);
    }
}

/// Makes the threads of a child's pipes. Where one can't be made, both pipes are closed, that of a thread that was made once its child has ended.
fn serve<R: Threads + Wait + Copy + Send + Sync + Drop + 'static>(
    rt: R,
    alloc: Global,
    counts: &Counts,
    reading: OutputPipe,
    writing: InputPipe,
) -> Result<(), NoMemory> {
    let reads = counts.share()?;
    let writes = counts.share()?;
    if thread::spawn(&rt, move || write_input(&rt, &writes, writing)).is_err() {
        return Err(NoMemory);
    }
    if thread::spawn(&rt, move || read_output(&rt, alloc, &reads, reading)).is_err() {
        return Err(NoMemory);
    }
    Ok(())
}
