//! The armed entries of a poller, in rising order by event, port and direction.
ghost use Rattle.std.specs.Prelude.{◌≡◌, ◌<◌, ◌||◌, ◌&&◌, ◌++◌, ◌∷◌, [], not, filter, vec_len, vec_capacity, unwrap_or};
ghost use Rattle.std.specs.List.Sorted.{IsStrictlySortedBy};
ghost use Rattle.ready_select.specs.declared.armed.Armed.{Armed as Entry};
ghost use Rattle.ready_select.specs.Order.{armed_cmp};
ghost use Rattle.ready_select.specs.Polling.{has_armed, same_armed, arms_entry, is_drop, entry_of, arm_ask};

use crate::ask::PollAsk;
use port_model::Dir;
use std::alloc::Global;
use std::marker::Model;

/// A port wants to know once that an event is ready for reading, or for writing.
#[derive(Clone, Copy, Debug, PartialEq, Eq, PartialOrd, Ord)]
pub struct Armed {
    pub event: u32,
    pub port: u32,
    pub is_write: bool,
}

impl Armed {
    pub(crate) fn new(port: u32, event: u32, dir: Dir) -> Armed
        ensures { result ≡ entry_of port event dir }
    {
        Armed {
            event,
            port,
            is_write: dir == Dir::Write,
        }
    }

    /// What the port is told.
    pub(crate) fn ask(&self) -> PollAsk
        ensures { result ≡ arm_ask self.now }
    {
        PollAsk::Arm {
            port: self.port,
            event: self.event,
            dir: if self.is_write { Dir::Write } else { Dir::Read },
        }
    }
}

fn arm(entries: &mut Vec<Armed>, armed: Armed)
    requires rising { IsStrictlySortedBy armed_cmp entries.old.items }
    requires room { vec_len entries.old < vec_capacity entries.old }
    ensures added { (a : Entry) → has_armed a entries.new.items ≡ (same_armed armed a || has_armed a entries.old.items) }
    ensures rising { IsStrictlySortedBy armed_cmp entries.new.items }
{
    if let Err(place) = entries.binary_search(&armed) {
        let Ok(()) = entries.insert(place, armed) else {
            unreachable!()
        };
    }
}

fn disarm(entries: &mut Vec<Armed>, armed: Armed)
    requires { IsStrictlySortedBy armed_cmp entries.old.items }
    ensures left { (a : Entry) → has_armed a entries.new.items ≡ (has_armed a entries.old.items && not (same_armed armed a)) }
    ensures rising { IsStrictlySortedBy armed_cmp entries.new.items }
{
    if let Ok(place) = entries.binary_search(&armed) {
        entries.remove(place);
    }
}

/// Does what the ask says to the entries. What it gives up is found.
pub(crate) fn settle(entries: &mut Vec<Armed>, found: &mut Vec<PollAsk>, ask: PollAsk)
    requires rising { IsStrictlySortedBy armed_cmp entries.old.items }
    requires room { vec_len entries.old < vec_capacity entries.old }
    requires room_to_tell { vec_len found.old < vec_capacity found.old }
    ensures armed { (a : Entry) → has_armed a entries.new.items ≡ unwrap_or (arms_entry a ask) (has_armed a entries.old.items) }
    ensures rising { IsStrictlySortedBy armed_cmp entries.new.items }
    ensures found { found.new.items ≡ found.old.items ++ filter is_drop (ask ∷ []) }
{
    match ask {
        PollAsk::Arm { port, event, dir } => arm(entries, Armed::new(port, event, dir)),
        PollAsk::Drop { port, event } => {
            disarm(entries, Armed::new(port, event, Dir::Read));
            disarm(entries, Armed::new(port, event, Dir::Write));
            let Ok(()) = found.push(ask) else {
                unreachable!()
            };
        }
        PollAsk::Finish => {}
    }
}

/// The armed entries of a poller: of the `Arm` asks that it took, each until it told the port, or took a `Drop` of its
/// port and event.
#[derive(Drop)]
pub struct PollTable {
    pub(crate) entries: Vec<Armed>,
}

impl Model for PollTable {
    ghost use Rattle.std.specs.Prelude.{List};
    ghost use Rattle.ready_select.specs.declared.armed.Armed.{Armed};
    ghost use Rattle.std.specs.List.Sorted.{IsStrictlySortedBy};
    ghost use Rattle.ready_select.specs.Order.{armed_cmp};

    ghost Value = { List Armed };

    ghost view = { λ t. t.entries.items };

    ghost invariant = { λ t. IsStrictlySortedBy armed_cmp t.entries.items };
}

impl PollTable {
    /// Nothing is armed.
    pub fn new(alloc: Global) -> PollTable
        ensures { result ≡ [] }
    {
        PollTable {
            entries: Vec::new(alloc),
        }
    }
}
