// The mail of a process.
ghost use Rattle.std.specs.Prelude.{◌≡◌, ◌<◌, [], ◌∷◌, ◌++◌, List, IsTrue, OnOk, IfOk};
ghost use Rattle.port_model.specs.declared.mail.Mail.{Mail as TheMail};
ghost use Rattle.process_job.specs.Counts.{AreCounted, HasData};

use no_memory::NoMemory;
use port_model::Mail;
use std::alloc::Global;
use std::marker::Model;

/// For how many mails room is made before they come, at most: a process makes so many calls at most.
const MOST_ROOM: usize = 131_072;

/// How many data messages came from a port, and how many bytes they have together.
#[derive(Clone, Copy)]
pub(crate) struct DataCount {
    messages: u64,
    bytes: u64,
}

/// How much data of a port a step waits for.
#[derive(Clone, Copy)]
pub(crate) enum DataWanted {
    Messages(u64),
    Bytes(u64),
}

/// The mail that came to a process and that it added itself, in order, with a count of the data of each port, so that a step that waits for data needn't read all mail.
pub(crate) struct MailLog {
    mails: Vec<Mail>,
    counts: Vec<DataCount>,
}

// Its parts go by one call, which is proved once and not in each function that may let one go.
impl Drop for MailLog {
    fn drop(self) {
        let Self {
            mails: _,
            counts: _,
        } = self;
    }
}

impl Model for MailLog {
    ghost use Rattle.std.specs.Prelude.{List};
    ghost use Rattle.port_model.specs.declared.mail.Mail.{Mail};
    ghost use Rattle.process_job.specs.Counts.{AreCounted};

    ghost Value = { List Mail };

    ghost view = { λ l. l.mails.items };

    ghost invariant = { λ l. AreCounted l.mails.items l.counts.items };
}

/// Counts of so many ports that sent no data.
fn no_data(alloc: Global, ports: usize) -> Result<Vec<DataCount>, NoMemory>
    ensures { IfOk result (λ counts. AreCounted [] counts.items) }
{
    let none = DataCount {
        messages: 0,
        bytes: 0,
    };
    Ok(vec![in alloc; none; ports]?)
}

/// Counts a mail.
fn count(counts: &mut Vec<DataCount>, mail: &Mail)
    ensures { (mails : List TheMail) → AreCounted mails counts.old.items → AreCounted (mails ++ mail.now ∷ []) counts.new.items }
{
    let Mail::Message { port, bytes, .. } = mail else {
        return;
    };
    let at = *port as usize;
    if at < counts.len() {
        let DataCount {
            messages,
            bytes: size,
        } = counts[at];
        counts[at] = DataCount {
            messages: messages.saturating_add(1),
            bytes: size.saturating_add(bytes.len() as u64),
        };
    }
}

impl MailLog {
    /// No mail yet, with counts for so many ports.
    pub(crate) fn new(alloc: Global, ports: usize) -> Result<MailLog, NoMemory>
        ensures { IfOk result (λ log. log ≡ []) }
    {
        Ok(MailLog {
            mails: Vec::new(alloc),
            counts: no_data(alloc, ports)?,
        })
    }

    /// Makes room for so many mails.
    pub(crate) fn reserve(&mut self, mails: usize) -> Result<(), NoMemory>
        ensures { self.new ≡ self.old }
    {
        self.mails.reserve(mails.min(MOST_ROOM))?;
        Ok(())
    }

    pub(crate) fn add(&mut self, mail: Mail) -> Result<(), NoMemory>
        ensures { OnOk result (self.new ≡ self.old ++ mail ∷ []) }
    {
        self.mails.reserve(1)?;
        count(&mut self.counts, &mail);
        self.mails.push_reserved(mail);
        Ok(())
    }

    /// Whether so much data of a port came. Of a port without a count none did.
    pub(crate) fn has(&self, port: u32, wanted: DataWanted) -> bool
        ensures { IsTrue result → HasData port wanted self.now }
    {
        let at = port as usize;
        let (messages, bytes) = if at < self.counts.len() {
            (self.counts[at].messages, self.counts[at].bytes)
        } else {
            (0, 0)
        };
        match wanted {
            DataWanted::Messages(count) => count <= messages,
            DataWanted::Bytes(count) => count <= bytes,
        }
    }

    pub(crate) fn into_mails(self) -> Vec<Mail>
        ensures { result.items ≡ self }
    {
        let Self { mails, counts: _ } = self;
        mails
    }
}
