// The words of ports: of each the port's seat, and a seat for each process.
ghost use Rattle.std.specs.Prelude.{◌<◌, ◌≤◌, ◌∷◌, [], ◌++◌, List, length, map, All, IfOk, OnOk};
ghost use Rattle.port_words.specs.declared.busy.view.QueueLimits.{QueueLimits as Limits};
ghost use Rattle.port_words.specs.busy.Known.{InRange};
ghost use Rattle.run_lanes.specs.Words.{AreTables, AreWords};

use crate::columns::transposed;
use no_memory::NoMemory;
use port_words::busy::{PortSeat, QueueLimits, SendSeat, busy_table};
use std::alloc::Global;

// The words of one port more.
fn add_table(
    alloc: Global,
    limits: QueueLimits,
    senders: u32,
    seats: &mut Vec<PortSeat>,
    rows: &mut Vec<Vec<SendSeat>>,
) -> Result<(), NoMemory>
    requires senders { (0 < senders) × (senders ≤ 32) }
    requires limits { InRange limits.on limits.low limits.high }
    ensures { OnOk result ((before : List Limits) → AreTables before senders seats.old.items (map (λ r. r.items) rows.old.items)
        → AreTables (before ++ limits ∷ []) senders seats.new.items (map (λ r. r.items) rows.new.items)) }
{
    let QueueLimits { on, low, high } = limits;
    let (seat, row) = busy_table(alloc, on, low, high, senders)?;
    seats.push(seat)?;
    rows.push(row)?;
    Ok(())
}

/// The words of ports with these limits: of each the port's seat, and for each sender, by their numbers, a seat of each port, in the order of the ports.
pub(crate) fn words(
    alloc: Global,
    ports: &[QueueLimits],
    senders: u32,
) -> Result<(Vec<PortSeat>, Vec<Vec<SendSeat>>), NoMemory>
    requires senders { 0 < length ports.now → (0 < senders) × (senders ≤ 32) }
    requires limits { All (λ l. InRange l.on l.low l.high) ports.now }
    ensures { IfOk result (λ r. AreWords ports.now senders r.0.items (map (λ c. c.items) r.1.items)) }
{
    let mut seats = Vec::new(alloc);
    let mut rows = Vec::new(alloc);
    'ports: for limits in ports {
        add_table(alloc, *limits, senders, &mut seats, &mut rows)?;
    }
    let columns = transposed(alloc, rows, senders as usize)?;
    Ok((seats, columns))
}
