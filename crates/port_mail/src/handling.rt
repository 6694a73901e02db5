ghost use Rattle.std.specs.Prelude.{◌≡◌};
ghost use Rattle.port_links.specs.port_history.Opening.{Opening};
ghost use Rattle.port_mail.specs.Rows.{may_connect, IsHandling};

use crate::{Effect, Links, Post, Sender, Signal};

/// What is known of a port and of a signal to it before the signal is noted in the port's ties.
#[derive(Clone, Copy)]
pub struct Handling {
    /// The port's place in the order of declaration, from 0.
    pub port: u32,
    /// The owner before the row.
    pub owner: u32,
    /// Whether the process that a connect names may own the port, before the row. Of other signals it is false.
    pub may_own: bool,
    pub from: Sender,
    /// The place of the signal among those of its sender to the port, from 0.
    pub seq: u64,
}

/// Where a signal came from.
#[derive(Clone, Copy)]
pub struct Origin {
    /// The place of the signal's port in the order of declaration, from 0.
    pub port: u32,
    pub from: Sender,
    /// The place of the signal among those of its sender to the port, from 0.
    pub seq: u64,
}

/// The end of a sender's wait for a busy port.
#[derive(Clone, Copy)]
pub struct Resumption {
    /// The place of the port in the order of declaration, from 0.
    pub port: u32,
    /// The process that waited, by its place in the order of declaration, from 0.
    pub process: u32,
    /// The place of the command for which it waited among its signals to the port, from 0.
    pub seq: u64,
    /// The word MSGQ that was loaded for it.
    pub word: u64,
    /// Whether the port isn't open.
    pub closed: bool,
}

/// What the closing of a port adds to the mail of a row.
#[derive(Drop)]
pub struct Closing {
    /// What the linked processes and the monitors are told, in that order, where the row closes the port; else none.
    pub posts: Vec<Post>,
    /// Whether the driver is stopped in the row.
    pub stops: bool,
    /// The owner that asked for the close, where one did.
    pub closer: Option<u32>,
}

/// What the mail of a handled row is made of.
#[derive(Drop)]
pub struct HandledRow<'a> {
    pub handling: Handling,
    pub effects: &'a [Effect],
    pub signal: &'a Signal,
    pub closing: Closing,
}

impl Handling {
    /// What the ties of the port of this number say for the signal.
    pub fn new(links: &Links, port: u32, from: Sender, seq: u64, signal: &Signal) -> Handling
        ensures task { (result.port ≡ port) × (result.from ≡ from) × (result.seq ≡ seq) }
        ensures ties { (opening : Opening) → opening.number ≡ port → opening.processes ≡ links.now.processes → IsHandling result opening links.now.ties signal.now }
    {
        Handling {
            port,
            owner: links.owner(),
            may_own: may_connect(links, signal),
            from,
            seq,
        }
    }
}

/// Whether the process that a connect names may own the port.
fn may_connect(links: &Links, signal: &Signal) -> bool
    ensures { (opening : Opening) → opening.processes ≡ links.now.processes → result ≡ may_connect opening links.now.ties signal.now }
{
    match signal {
        Signal::Connect(process) => links.may_own(*process),
        Signal::OwnerConnect(process) => links.may_own(*process),
        _ => false,
    }
}
