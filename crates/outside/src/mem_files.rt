ghost use Rattle.std.specs.Prelude.{◌≡◌, ◌≢◌, ◌^◌, ◌<◌, ◌≤◌, ◌↔◌, [], Some, IsTrue, IsErrOf, OnOk, OnErr, IfOk, MatchResult, position};
ghost use Rattle.std.specs.Option.{option_copied};
ghost use Rattle.std.specs.List.{flat_map};
ghost use Rattle.std.specs.Str.{bytes_eq};
ghost use Rattle.outside.specs.Causes.{ReadOk, ReadErr, WriteOk, WriteErr};
ghost use Rattle.outside.specs.Disk.{contents, Rewrites};
ghost use Rattle.outside.specs.Log.{noted};
ghost use Rattle.outside.specs.Plan.{fails, after_call, faults_after, no_calls, with_fault};

use crate::call_plan::CallPlan;
use crate::{FaultCount, FileFault, FileLog, Files, NoMemory};
use std::alloc::{AllocError, Global};
use std::marker::Model;

/// A file in memory.
#[derive(Debug, Drop)]
struct NamedFile {
    name: String,
    bytes: Vec<u8>,
}

impl Model for NamedFile {
    ghost use Rattle.std.specs.Prelude.{string_bytes};
    ghost use Rattle.outside.specs.Disk.{File};

    ghost Value = { File };

    ghost view = { λ f. record { name = string_bytes f.name; bytes = f.bytes.items } };
}

impl NamedFile {
    fn new(alloc: Global, name: &str, bytes: Vec<u8>) -> Result<Self, NoMemory>
        ensures { IfOk result (λ file. file ≡ record { name = name.now; bytes = bytes.items }) }
    {
        Ok(NamedFile {
            name: String::from_str(alloc, name)?,
            bytes,
        })
    }

    fn is_named(&self, name: &str) -> bool
        ensures { result ≡ bytes_eq self.now.name name.now }
    {
        self.name.as_str() == name
    }
}

/// The parts, joined in their order.
fn joined(alloc: Global, parts: &[&[u8]]) -> Result<Vec<u8>, AllocError>
    ensures { IfOk result (λ bytes. bytes.items ≡ flat_map (λ part. part.now) parts.now) }
{
    let mut bytes = Vec::new(alloc);
    for part in parts {
        bytes.extend_from_slice(*part)?;
    }
    Ok(bytes)
}

/// Files in memory, with reads and writes that can be made to fail. It tells what it holds.
#[derive(Debug, Drop)]
pub struct MemFiles {
    files: Vec<NamedFile>,
    reads: CallPlan,
    writes: CallPlan,
    read_faults: FaultCount,
    write_faults: FaultCount,
    answered: FileLog,
    wrote: FileLog,
}

impl Model for MemFiles {
    ghost use Rattle.outside.specs.Disk.{Disk};

    ghost Value = { Disk };

    ghost view = { λ m. record {
      files = m.files.items;
      reads = m.reads;
      writes = m.writes;
      read_faults = m.read_faults;
      write_faults = m.write_faults;
      answered = m.answered;
      wrote = m.wrote;
    } };
}

impl MemFiles {
    /// No files. No read or write fails.
    pub fn new(alloc: Global) -> Self
        ensures { result ≡ record {
          files = [];
          reads = no_calls;
          writes = no_calls;
          read_faults = 0;
          write_faults = 0;
          answered = [];
          wrote = [];
        } }
    {
        MemFiles {
            files: Vec::new(alloc),
            reads: CallPlan::new(alloc),
            writes: CallPlan::new(alloc),
            read_faults: FaultCount::new(),
            write_faults: FaultCount::new(),
            answered: FileLog::new(),
            wrote: FileLog::new(),
        }
    }

    fn place_of(&self, name: &str) -> Option<usize>
        ensures { result ≡ position (λ file. bytes_eq file.name name.now) self.now.files }
    {
        self.files.iter().position(|file| file.is_named(name))
    }

    /// Puts a file there before use, which counts as no write.
    pub fn hold(&mut self, name: &str, bytes: &[u8]) -> Result<(), NoMemory>
        ensures ok { OnOk result (Rewrites self.old.files self.new.files name.now bytes.now) }
        ensures err { OnErr result (self.new.files ≡ self.old.files) }
        ensures others { self.new ≡ record self.old { files = self.new.files } }
    {
        let alloc = *self.files.allocator();
        self.store(alloc, name, Vec::from_slice(alloc, bytes)?)
    }

    fn store(&mut self, alloc: Global, name: &str, bytes: Vec<u8>) -> Result<(), NoMemory>
        ensures ok { OnOk result (Rewrites self.old.files self.new.files name.now bytes.items) }
        ensures err { OnErr result (self.new.files ≡ self.old.files) }
        ensures others { self.new ≡ record self.old { files = self.new.files } }
    {
        let file = NamedFile::new(alloc, name, bytes)?;
        match self.place_of(name) {
            Some(place) => self.files[place] = file,
            None => self.files.push(file).map_err(|_| NoMemory)?,
        }
        Ok(())
    }

    /// Makes the read of this number fail. Reads are counted from 0.
    pub fn fail_read(&mut self, number: u64) -> Result<(), NoMemory>
        ensures ok { OnOk result (self.new ≡ record self.old { reads = with_fault self.old.reads number }) }
        ensures err { OnErr result (self.new ≡ self.old) }
    {
        self.reads.fail(number)
    }

    /// Makes the write of this number fail. Writes are counted from 0.
    pub fn fail_write(&mut self, number: u64) -> Result<(), NoMemory>
        ensures ok { OnOk result (self.new ≡ record self.old { writes = with_fault self.old.writes number }) }
        ensures err { OnErr result (self.new ≡ self.old) }
    {
        self.writes.fail(number)
    }

    /// A copy of what is held under a name, if it has at most `max` bytes.
    fn copy(&self, alloc: Global, name: &str, max: u64) -> Result<Vec<u8>, FileFault>
        ensures { MatchResult result
            (λ bytes. ReadOk 0 0 (Some (contents self.now.files)) name.now max bytes.items)
            (λ fault. (fault ≢ FileFault.Failed) × ReadErr 0 0 (Some (contents self.now.files)) name.now max fault) }
    {
        match self.held(name) {
            None => Err(FileFault::Missing),
            Some(bytes) if bytes.len() as u64 > max => Err(FileFault::Over),
            Some(bytes) => match Vec::from_slice(alloc, bytes) {
                Ok(copy) => Ok(copy),
                Err(_) => Err(FileFault::NoMemory),
            },
        }
    }

    /// The bytes held under a name. It counts as no read.
    pub fn held(&self, name: &str) -> Option<&[u8]>
        ensures { option_copied result ≡ contents self.now.files name.now }
    {
        let file = self.files.iter().find(|file| file.is_named(name))?;
        Some(file.bytes.as_slice())
    }
}

impl Files for MemFiles {
    ghost reads = { λ m. m.read_faults };

    ghost writes = { λ m. m.write_faults };

    ghost told = { λ m. Some (contents m.files) };

    ghost answered = { λ m. m.answered };

    ghost wrote = { λ m. m.wrote };

    fn read(&mut self, alloc: Global, name: &str, max: u64) -> Result<Vec<u8>, FileFault>
        ensures read { MatchResult result
            (λ bytes. ReadOk self.old.read_faults self.new.read_faults (Some (contents self.old.files)) name.now max bytes.items)
            (λ fault. ReadErr self.old.read_faults self.new.read_faults (Some (contents self.old.files)) name.now max fault) }
        ensures rises { self.old.read_faults ≤ self.new.read_faults }
        ensures writes { self.new.write_faults ≡ self.old.write_faults }
        ensures told { Some (contents self.new.files) ≡ Some (contents self.old.files) }
        ensures answered { MatchResult result (λ bytes. self.new.answered ≡ noted self.old.answered name.now bytes.items) (λ _. self.new.answered ≡ self.old.answered) }
        ensures wrote { self.new.wrote ≡ self.old.wrote }

        // A read fails exactly where it is to fail, and changes nothing but its count and its log.
        ensures planned { IsErrOf result FileFault.Failed ↔ IsTrue (fails self.old.reads) }
        ensures after { self.new ≡ record self.old {
          reads = after_call self.old.reads;
          read_faults = faults_after self.old.reads self.old.read_faults;
          answered = self.new.answered;
        } }
    {
        if self.reads.next_fails(&mut self.read_faults) {
            return Err(FileFault::Failed);
        }
        let bytes = self.copy(alloc, name, max)?;
        self.answered.note(name, bytes.as_slice());
        Ok(bytes)
    }

    /// A write that is to fail changes no file.
    fn write(&mut self, alloc: Global, name: &str, parts: &[&[u8]]) -> Result<(), FileFault>
        ensures write { MatchResult result
            (λ _. WriteOk self.old.write_faults self.new.write_faults (Some (contents self.old.files)) (Some (contents self.new.files)) name.now (flat_map (λ part. part.now) parts.now))
            (λ fault. WriteErr self.old.write_faults self.new.write_faults (Some (contents self.old.files)) (Some (contents self.new.files)) name.now fault) }
        ensures rises { self.old.write_faults ≤ self.new.write_faults }
        ensures reads { self.new.read_faults ≡ self.old.read_faults }
        ensures wrote { MatchResult result (λ _. self.new.wrote ≡ noted self.old.wrote name.now (flat_map (λ part. part.now) parts.now)) (λ _. self.new.wrote ≡ self.old.wrote) }
        ensures answered { self.new.answered ≡ self.old.answered }

        // A write fails exactly where it is to fail.
        ensures planned { IsErrOf result FileFault.Failed ↔ IsTrue (fails self.old.writes) }
        ensures after { self.new ≡ record self.old {
          files = self.new.files;
          writes = after_call self.old.writes;
          write_faults = faults_after self.old.writes self.old.write_faults;
          wrote = self.new.wrote;
        } }
        ensures err { OnErr result (self.new.files ≡ self.old.files) }
    {
        if self.writes.next_fails(&mut self.write_faults) {
            return Err(FileFault::Failed);
        }
        let bytes = joined(alloc, parts)?;
        match self.store(alloc, name, bytes) {
            Ok(()) => {
                self.wrote.note_parts(name, parts);
                Ok(())
            }
            Err(NoMemory) => Err(FileFault::NoMemory),
        }
    }
}
