ghost use Rattle.std.specs.Prelude.{◌≡◌, ℕ, ◌+◌, ◌<◌, ◌≤◌, ◌==◌, IfOk, IfErr, OnOk, length, vec_len, vec_capacity, map, filter, not, drop, ◌++◌};
ghost use Rattle.std.specs.List.{list_any};
ghost use Rattle.std.specs.List.Sorted.{IsStrictlySortedBy, IsStrictlyIncreasing};
ghost use Rattle.outside.specs.Causes.{WaitErr};
ghost use Rattle.ready_select.specs.Sets.{has};
ghost use Rattle.ready_select.specs.Answered.{IsAnswered};
ghost use Rattle.ready_select.specs.Order.{armed_cmp};
ghost use Rattle.ready_select.specs.Polling.{arm_ask, IsRound, IsWaited};

use crate::armed::{Armed, PollTable};
use crate::ask::{PollAsk, Polled};
use crate::event_set::is_among;
use crate::take_asks::{Taken, take_asks};
use outside::{PollFault, PollSet};
use std::alloc::{AllocError, Global};
use std::sync::Wait;
use task_queue::TakeEnd;

fn events_of(alloc: Global, entries: &[Armed]) -> Result<Vec<u32>, AllocError>
    ensures { IfOk result (λ events. events.items ≡ map (λ a. a.event) entries.now) }
{
    entries.iter().map(|entry| entry.event).collect(alloc)
}

// The events of the entries, each once, by rising number.
fn armed_events(alloc: Global, entries: &[Armed]) -> Result<Vec<u32>, AllocError>
    requires { IsStrictlySortedBy armed_cmp entries.now }
    ensures each { IfOk result (λ events. (event : ℕ) → has event events.items ≡ list_any (λ a. a.event == event) entries.now) }
    ensures rising { IfOk result (λ events. IsStrictlyIncreasing events.items) }
{
    let mut events = events_of(alloc, entries)?;
    events.dedup();
    Ok(events)
}

// The entries of these events are found, and leave the table.
fn hand_over(entries: &mut Vec<Armed>, events: &[u32], found: &mut Vec<PollAsk>)
    requires events { IsStrictlyIncreasing events.now }
    requires room { vec_len found.old + length entries.old.items ≤ vec_capacity found.old }
    ensures left { entries.new.items ≡ filter (λ a. not (has a.event events.now)) entries.old.items }
    ensures found { found.new.items ≡ found.old.items ++ map arm_ask (filter (λ a. has a.event events.now) entries.old.items) }
{
    for entry in entries.iter() {
        if is_among(events, entry.event) {
            let Ok(()) = found.push(entry.ask()) else {
                unreachable!()
            };
        }
    }
    entries.retain(|entry| !is_among(events, entry.event));
}

// Waits once for the events of the entries.
fn wait_once<P: PollSet>(
    alloc: Global,
    poll: &mut P,
    entries: &mut Vec<Armed>,
    found: &mut Vec<PollAsk>,
) -> Result<(), PollFault>
    requires { IsStrictlySortedBy armed_cmp entries.old.items }
    ensures waited { OnOk result (IsWaited (P.faults poll.old) (P.faults poll.new) (P.answered poll.old) (P.answered poll.new) entries.old.items entries.new.items found.old.items found.new.items) }
    ensures refused { IfErr result (λ fault. WaitErr (P.faults poll.old) (P.faults poll.new) (P.answered poll.old) (P.answered poll.new) fault × (entries.new.items ≡ entries.old.items) × (found.new.items ≡ found.old.items)) }
    ensures rising { IsStrictlySortedBy armed_cmp entries.new.items }
{
    let armed = armed_events(alloc, entries.as_slice())?;
    found.reserve(entries.len())?;
    let events = poll.wait(alloc, armed.as_slice())?;
    hand_over(entries, events.as_slice(), found);
    Ok(())
}

/// One round of a poller: it takes the asks that are there, at most 1,024 and none after a `Finish`, and where there was no
/// `Finish` waits once for the armed events.
///
/// It appends to `found` a `Drop` for each that it took, and an `Arm` for each armed port, event and direction whose event
/// was answered, which then isn't armed any more. `Finished` comes where `Finish` was taken, and `Failed` where the wait
/// failed. After `Failed` and `NoMemory` the asks that were taken stand in the table, and the next round goes on with them.
///
/// A round costs the asks that it takes, and one walk of the table.
pub fn poll_round<P: PollSet, R: Wait>(
    rt: &R,
    alloc: Global,
    poll: &mut P,
    table: &mut PollTable,
    asks: &mut TakeEnd<PollAsk>,
    found: &mut Vec<PollAsk>,
) -> Polled
    ensures round { IsRound
        (record { faults = P.faults poll.old; answered = P.answered poll.old; table = table.old; found = found.old.items; lane = asks.old })
        (record { faults = P.faults poll.new; answered = P.answered poll.new; table = table.new; found = found.new.items; lane = asks.new })
        result }
    ensures answered { IsAnswered (P.answered poll.old) (P.answered poll.new) (drop (length found.old.items) found.new.items) }
{
    match take_asks(rt, &mut table.entries, asks, found) {
        Taken::Finished => Polled::Finished,
        Taken::NoMemory => Polled::NoMemory,
        Taken::All => match wait_once(alloc, poll, &mut table.entries, found) {
            Ok(()) => Polled::Round,
            Err(PollFault::Failed) => Polled::Failed,
            Err(PollFault::NoMemory) => Polled::NoMemory,
        },
    }
}
