//! What calls answered so far, as clauses see it. A log has no bytes at run time.
ghost use Rattle.std.specs.Prelude.{◌≡◌, [], ◌++◌};
ghost use Rattle.std.specs.List.{flat_map};
ghost use Rattle.outside.specs.Log.{noted};

use std::fmt;
use std::marker::Model;
use std::snapshot::Snapshot;

/// A snapshot of a value that the caller's proof names, out of what `from` shows.
fn named<T, X>(blank: Snapshot<T>, from: &X) -> Snapshot<T>
    ghost after: { T }
    ensures { result.value ≡ after }
{
    let _ = from;
    blank
}

/// The entries of a log on files. It is there for snapshots of it alone.
#[derive(Drop)]
struct FileEntries {
    marker: (),
}

impl Model for FileEntries {
    ghost use Rattle.std.specs.Prelude.{List, []};
    ghost use Rattle.outside.specs.Log.{NamedBytes};

    ghost Value = { List NamedBytes };

    ghost view = { λ _. [] };
}

/// The entries of a log of bytes or of events. It is there for snapshots of it alone.
#[derive(Drop)]
struct NumberEntries {
    marker: (),
}

impl Model for NumberEntries {
    ghost use Rattle.std.specs.Prelude.{List, ℕ, []};

    ghost Value = { List ℕ };

    ghost view = { λ _. [] };
}

/// Names with bytes, oldest first: what reads answered, or what writes wrote.
#[derive(Drop)]
pub struct FileLog {
    entries: Snapshot<FileEntries>,
}

impl Model for FileLog {
    ghost use Rattle.std.specs.Prelude.{List};
    ghost use Rattle.outside.specs.Log.{NamedBytes};

    ghost Value = { List NamedBytes };

    ghost view = { λ l. l.entries.value };
}

/// A log with what it is to note.
#[derive(Drop)]
struct NextFile<'a> {
    log: &'a FileLog,
    name: &'a str,
    bytes: &'a [u8],
}

/// A log with what it is to note, as another log tells it.
#[derive(Drop)]
struct NextTold<'a> {
    log: &'a FileLog,
    name: &'a str,
    bytes: &'a ByteLog,
}

impl FileLog {
    pub fn new() -> Self
        ensures { result ≡ [] }
    {
        FileLog {
            entries: Snapshot::of(&FileEntries { marker: () }),
        }
    }

    fn with(&self, name: &str, bytes: &[u8]) -> Self
        ensures { result ≡ noted self.now name.now bytes.now }
    {
        let blank = Snapshot::of(&FileEntries { marker: () });
        let next = NextFile {
            log: self,
            name,
            bytes,
        };
        FileLog {
            entries: named(blank, &next),
        }
    }

    /// Notes one more answer.
    pub fn note(&mut self, name: &str, bytes: &[u8])
        ensures { self.new ≡ noted self.old name.now bytes.now }
    {
        *self = self.with(name, bytes);
    }

    fn with_told(&self, name: &str, bytes: &ByteLog) -> Self
        ensures { result ≡ noted self.now name.now bytes.now }
    {
        let blank = Snapshot::of(&FileEntries { marker: () });
        let next = NextTold {
            log: self,
            name,
            bytes,
        };
        FileLog {
            entries: named(blank, &next),
        }
    }

    /// Notes one more answer, whose bytes are these parts joined.
    pub fn note_parts(&mut self, name: &str, parts: &[&[u8]])
        ensures { self.new ≡ noted self.old name.now (flat_map (λ part. part.now) parts.now) }
    {
        let mut bytes = ByteLog::new();
        for part in parts {
            bytes.note(*part);
        }
        *self = self.with_told(name, &bytes);
    }
}

impl fmt::Debug for FileLog {
    fn fmt<W: fmt::Write>(&self, f: &mut fmt::Formatter<W>) -> Result<(), fmt::Error> {
        f.write_str("FileLog")
    }
}

/// Bytes, oldest first: what puts took, what was given to a program, or what was fetched from it.
#[derive(Drop)]
pub struct ByteLog {
    entries: Snapshot<NumberEntries>,
}

impl Model for ByteLog {
    ghost use Rattle.std.specs.Prelude.{List, ℕ};

    ghost Value = { List ℕ };

    ghost view = { λ l. l.entries.value };
}

/// A log with what it is to note.
#[derive(Drop)]
struct NextBytes<'a> {
    log: &'a ByteLog,
    bytes: &'a [u8],
}

impl ByteLog {
    pub fn new() -> Self
        ensures { result ≡ [] }
    {
        ByteLog {
            entries: Snapshot::of(&NumberEntries { marker: () }),
        }
    }

    fn with(&self, bytes: &[u8]) -> Self
        ensures { result ≡ self.now ++ bytes.now }
    {
        let blank = Snapshot::of(&NumberEntries { marker: () });
        let next = NextBytes { log: self, bytes };
        ByteLog {
            entries: named(blank, &next),
        }
    }

    /// Notes more bytes.
    pub fn note(&mut self, bytes: &[u8])
        ensures { self.new ≡ self.old ++ bytes.now }
    {
        *self = self.with(bytes);
    }
}

impl fmt::Debug for ByteLog {
    fn fmt<W: fmt::Write>(&self, f: &mut fmt::Formatter<W>) -> Result<(), fmt::Error> {
        f.write_str("ByteLog")
    }
}

/// Numbers of events, oldest first: what waits answered.
#[derive(Drop)]
pub struct EventLog {
    entries: Snapshot<NumberEntries>,
}

impl Model for EventLog {
    ghost use Rattle.std.specs.Prelude.{List, ℕ};

    ghost Value = { List ℕ };

    ghost view = { λ l. l.entries.value };
}

/// A log with what it is to note.
#[derive(Drop)]
struct NextEvents<'a> {
    log: &'a EventLog,
    events: &'a [u32],
}

impl EventLog {
    pub fn new() -> Self
        ensures { result ≡ [] }
    {
        EventLog {
            entries: Snapshot::of(&NumberEntries { marker: () }),
        }
    }

    fn with(&self, events: &[u32]) -> Self
        ensures { result ≡ self.now ++ events.now }
    {
        let blank = Snapshot::of(&NumberEntries { marker: () });
        let next = NextEvents { log: self, events };
        EventLog {
            entries: named(blank, &next),
        }
    }

    /// Notes more events.
    pub fn note(&mut self, events: &[u32])
        ensures { self.new ≡ self.old ++ events.now }
    {
        *self = self.with(events);
    }
}

impl fmt::Debug for EventLog {
    fn fmt<W: fmt::Write>(&self, f: &mut fmt::Formatter<W>) -> Result<(), fmt::Error> {
        f.write_str("EventLog")
    }
}
