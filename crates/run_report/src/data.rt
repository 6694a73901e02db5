//! The data that came to a process: how many messages, and the digest of their bytes.
ghost use Rattle.std.specs.Prelude.{◌≡◌, ◌==◌, ◌++◌, ℕ, List, [], IfOk, OnOk, if◌then◌else◌};
ghost use Rattle.sha2.specs.Sha256.{sha256};
ghost use Rattle.port_history.specs.Counts.{data_messages, is_data, saved_data, saved_mail};
ghost use Rattle.run_report.specs.Data.{AddsEach, Holds, mail_bytes};

use no_memory::NoMemory;
use port_model::{Flag, Mail};
use sha2::{Digest, Sha256};
use std::alloc::Global;
use std::marker::Model;

/// What came to a process as data.
#[derive(Clone, Copy, Debug)]
pub(crate) struct DataSummary {
    pub messages: usize,
    /// The SHA-256 of what saves of the data would write, for the first port, then for the second, and so on.
    pub digest: [u8; 32],
}

/// The mail with data of one port, in the order in which it came. It is seen as the bytes that a save of it would write.
#[derive(Drop)]
struct PortData<'a> {
    mails: Vec<&'a Mail>,
}

impl<'a> Model for PortData<'a> {
    ghost use Rattle.std.specs.Prelude.{ℕ, List};
    ghost use Rattle.std.specs.List.{flat_map};
    ghost use Rattle.run_report.specs.Data.{mail_bytes};

    ghost Value = { List ℕ };

    ghost view = { λ d. flat_map (λ mail. mail_bytes mail.now) d.mails.items };
}

impl<'a> PortData<'a> {
    fn new(alloc: Global) -> PortData<'a>
        ensures { result ≡ [] }
    {
        PortData {
            mails: Vec::new(alloc),
        }
    }

    fn add(&mut self, mail: &'a Mail) -> Result<(), NoMemory>
        ensures { OnOk result (self.new ≡ self.old ++ mail_bytes mail.now) }
    {
        self.mails.push(mail)?;
        Ok(())
    }

    /// Hashes the bytes where they lie.
    fn hash<D: Digest>(&self, hasher: &mut D)
        ensures { (bytes : List ℕ) → D.holds hasher.old bytes → D.holds hasher.new (bytes ++ self.now) }
    {
        for mail in &self.mails {
            hash_mail(hasher, *mail);
        }
    }
}

fn hash_mail<D: Digest>(hasher: &mut D, mail: &Mail)
    ensures { (bytes : List ℕ) → D.holds hasher.old bytes → D.holds hasher.new (bytes ++ mail_bytes mail.now) }
{
    if let Mail::Message { flag, bytes, .. } = mail {
        hasher.update(bytes.as_slice());
        if *flag == Flag::Eol {
            hasher.update(b"\n");
        }
    }
}

/// What came to a process as data from so many ports. The mail is gone through once, whatever the number of ports, and each byte is
/// hashed where it lies.
pub(crate) fn data_summary(
    alloc: Global,
    ports: u32,
    mails: &[Mail],
) -> Result<DataSummary, NoMemory>
    ensures messages { IfOk result (λ r. r.messages ≡ data_messages mails.now) }
    ensures digest { IfOk result (λ r. r.digest ≡ sha256 (saved_data ports mails.now)) }
{
    let (lists, messages) = data_by_port(alloc, ports, mails)?;
    let mut hasher = Sha256::new();
    for port in &lists {
        port.hash(&mut hasher);
    }
    Ok(DataSummary {
        messages,
        digest: hasher.finalize(),
    })
}

/// The mail with data of each port, and how many messages with data there are.
fn data_by_port<'a>(
    alloc: Global,
    ports: u32,
    mails: &'a [Mail],
) -> Result<(Vec<PortData<'a>>, usize), NoMemory>
    ensures lists { IfOk result (λ r. Holds ports mails.now r.0.items) }
    ensures messages { IfOk result (λ r. r.1 ≡ data_messages mails.now) }
{
    let mut lists = without_data(alloc, ports)?;
    let mut messages = 0;
    for mail in mails {
        add_mail(&mut lists, mail)?;
        if is_data(mail) {
            messages += 1;
        }
    }
    Ok((lists, messages))
}

fn is_data(mail: &Mail) -> bool
    ensures { result ≡ is_data mail.now }
{
    matches!(mail, Mail::Message { .. })
}

/// No data of each port.
fn without_data<'a>(alloc: Global, ports: u32) -> Result<Vec<PortData<'a>>, NoMemory>
    ensures { IfOk result (λ lists. Holds ports [] lists.items) }
{
    let mut lists = Vec::new(alloc);
    for _ in 0..ports {
        lists.push(PortData::new(alloc))?;
    }
    Ok(lists)
}

/// Adds a mail with data to that of its port, and no other mail.
fn add_mail<'a>(lists: &mut Vec<PortData<'a>>, mail: &'a Mail) -> Result<(), NoMemory>
    ensures { OnOk result (AddsEach (λ port. saved_mail port mail.now) lists.old.items lists.new.items) }
{
    match mail {
        Mail::Message { port, .. } => add_at(lists, *port as usize, mail),
        Mail::Eof(_) | Mail::Status { .. } => Ok(()),
        Mail::Closed(_) | Mail::Connected(_) => Ok(()),
        Mail::Exit { .. } | Mail::Down { .. } => Ok(()),
        Mail::Reply { .. } | Mail::Resume { .. } => Ok(()),
    }
}

/// Adds a mail to the data at this place, where there is one.
fn add_at<'a>(lists: &mut Vec<PortData<'a>>, place: usize, mail: &'a Mail) -> Result<(), NoMemory>
    ensures { OnOk result (AddsEach (λ port. if place == port then mail_bytes mail.now else []) lists.old.items lists.new.items) }
{
    if place < lists.len() {
        lists[place].add(mail)?;
    }
    Ok(())
}
