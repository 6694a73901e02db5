ghost use Rattle.std.specs.Prelude.{◌≡◌, ◌<◌, ◌≤◌, [], ◌++◌, true, None, Ok, IfOk, OnOk, IfSome, IsErrOf, length};
ghost use Rattle.std.specs.Io.KnownBytes.{IsAtEnd};
ghost use Rattle.outside.specs.Reading.{Grows};

use crate::part_writer::{part_buffer, write_parts};
use crate::{FaultCount, FileFault, FileLog, Files};
use std::alloc::Global;
use std::fs::OpenFile;
use std::io::{ErrorKind, Read};
use std::{fs, io, rt};

/// The files of the machine. They tell nothing of what they hold.
///
/// A missing file, a directory and a disk that fails are all `Failed`.
#[derive(Debug, Drop)]
pub struct RealFiles<R> {
    rt: R,
    reads: FaultCount,
    writes: FaultCount,
    answered: FileLog,
    wrote: FileLog,
}

impl<R: rt::Files> RealFiles<R> {
    /// The files that `rt` reaches.
    pub fn new(rt: R) -> Self
        ensures reads { ⟦<RealFiles<R> as Files>⟧.reads result ≡ 0 }
        ensures writes { ⟦<RealFiles<R> as Files>⟧.writes result ≡ 0 }
        ensures answered { ⟦<RealFiles<R> as Files>⟧.answered result ≡ [] }
        ensures wrote { ⟦<RealFiles<R> as Files>⟧.wrote result ≡ [] }
    {
        RealFiles {
            rt,
            reads: FaultCount::new(),
            writes: FaultCount::new(),
            answered: FileLog::new(),
            wrote: FileLog::new(),
        }
    }

    fn read_file(&self, alloc: Global, name: &str, max: u64) -> Result<Vec<u8>, FileFault>
        ensures { IfOk result (λ bytes. length bytes.items ≤ max) }
    {
        match fs::open(&self.rt, name) {
            Ok(file) => read_whole(alloc, first_room(&file, max), file, max),
            Err(_) => Err(FileFault::Failed),
        }
    }

    fn write_file(&self, name: &str, buffer: &mut Vec<u8>, parts: &[&[u8]]) -> io::Result<()>
        requires { buffer.old.items ≡ [] }
    {
        let mut file = fs::create(&self.rt, name)?;
        write_parts(&mut file, buffer, parts)
    }
}

/// How many bytes a read asks for.
const CHUNK: usize = 64 * 1024;

/// For how many bytes room is made at first: for the length that the file tells, if it may have so many.
fn first_room<F: OpenFile>(file: &F, max: u64) -> usize {
    match file.metadata() {
        Ok(told) if told.len() <= max => told.len() as usize,
        Ok(_) | Err(_) => 0,
    }
}

/// Reads the source to its end where that comes within `max` bytes, and takes at most one byte more. Where there are more
/// bytes than there is room for at first, those read so far are copied as the room grows.
fn read_whole<S: Read + Drop>(
    alloc: Global,
    room: usize,
    source: S,
    max: u64,
) -> Result<Vec<u8>, FileFault>
    ensures within { IfOk result (λ bytes. length bytes.items ≤ max) }

    // Where it is known what the source has left.
    ensures whole { IfOk result (λ bytes. IfSome (S.remaining source) (λ all. bytes.items ≡ all)) }
    ensures over { IsErrOf result FileFault.Over → IfSome (S.remaining source) (λ all. max < length all) }
{
    let mut bytes = Vec::with_capacity(alloc, room)?;
    match read_rest(&mut source.take(max.saturating_add(1)), &mut bytes) {
        Ok(()) if bytes.len() as u64 > max => Err(FileFault::Over),
        Ok(()) => Ok(bytes),
        Err(error) if error.kind() == ErrorKind::OutOfMemory => Err(FileFault::NoMemory),
        Err(_) => Err(FileFault::Failed),
    }
}

/// Appends all that the source has left.
fn read_rest<S: Read>(source: &mut S, bytes: &mut Vec<u8>) -> io::Result<()>
    ensures { OnOk result (IfSome (S.remaining source.old) (λ rest. bytes.new.items ≡ bytes.old.items ++ rest)) }
{
    let mut chunk = [0; CHUNK];
    for _ in 0..u64::MAX {
        if read_chunk(source, &mut chunk, bytes)? {
            return Ok(());
        }
    }
    Err(io::Error::from(ErrorKind::TimedOut))
}

/// Appends what one read gives, and answers whether the source is at its end.
fn read_chunk<S: Read>(source: &mut S, chunk: &mut [u8], bytes: &mut Vec<u8>) -> io::Result<bool>
    requires { 0 < length chunk.old }
    ensures more { OnOk result (Grows (S.remaining source.old) (S.remaining source.new) bytes.old.items bytes.new.items) }
    ensures end { result ≡ Ok true → IsAtEnd (S.remaining source.new) }
{
    match source.read(chunk) {
        Ok(0) => Ok(true),
        Ok(count) => {
            bytes.extend_from_slice(&chunk[..count])?;
            Ok(false)
        }
        Err(error) if error.kind() == ErrorKind::Interrupted => Ok(false),
        Err(error) => Err(error),
    }
}

impl<R: rt::Files> Files for RealFiles<R> {
    ghost reads = { λ f. f.reads };

    ghost writes = { λ f. f.writes };

    ghost told = { λ _. None };

    ghost answered = { λ f. f.answered };

    ghost wrote = { λ f. f.wrote };

    fn read(&mut self, alloc: Global, name: &str, max: u64) -> Result<Vec<u8>, FileFault> {
        match self.read_file(alloc, name, max) {
            Ok(bytes) => {
                self.answered.note(name, bytes.as_slice());
                Ok(bytes)
            }
            Err(FileFault::Over) => Err(FileFault::Over),
            Err(FileFault::NoMemory) => Err(FileFault::NoMemory),
            Err(_) => {
                self.reads.rise();
                Err(FileFault::Failed)
            }
        }
    }

    /// Where no memory is found, the file is as it was.
    fn write(&mut self, alloc: Global, name: &str, parts: &[&[u8]]) -> Result<(), FileFault> {
        let mut buffer = part_buffer(alloc)?;
        if self.write_file(name, &mut buffer, parts).is_err() {
            self.writes.rise();
            return Err(FileFault::Failed);
        }
        self.wrote.note_parts(name, parts);
        Ok(())
    }
}
