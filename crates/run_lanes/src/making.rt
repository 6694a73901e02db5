// Lanes, each with all its ends.
ghost use Rattle.std.specs.Prelude.{◌≡◌, ◌<◌, [], ◌∷◌, ◌++◌, length, map, All, IfOk, OnOk};
ghost use Rattle.run_lanes.specs.Ends.{AreSplitOf, IsUntaken, AreAllEnds, AreAllRows, AreEndColumns};

use crate::columns::transposed;
use no_memory::NoMemory;
use std::alloc::Global;
use std::snapshot::Snapshot;
use task_queue::{Fits, SendEnd, TakeEnd, lane};

// All ends of a lane, of which the first is there.
fn all_ends<T: Fits + Drop>(
    alloc: Global,
    mut first: SendEnd<T>,
    ends: u32,
) -> Result<Vec<SendEnd<T>>, NoMemory>
    requires some { 0 < ends }
    requires first { (first.number ≡ 0) × (first.made ≡ 1) × (first.sent ≡ []) }
    ensures { IfOk result (λ all. AreSplitOf first ends all.items) }
{
    let mut all = Vec::new(alloc);
    'ends: for _ in 1..ends {
        let end = first.split()?;
        all.push(end)?;
    }
    all.insert(0, first)?;
    Ok(all)
}

/// A lane: its taking end, and so many sending ends, by their numbers.
pub fn lane_ends<T: Fits + Drop>(
    alloc: Global,
    key: Snapshot<T::Key>,
    ends: u32,
) -> Result<(TakeEnd<T>, Vec<SendEnd<T>>), NoMemory>
    ensures taker { IfOk result (λ r. IsUntaken key.value r.0) }
    ensures ends { IfOk result (λ r. AreAllEnds r.0 ends r.1.items) }
{
    let (first, taker) = lane(alloc, key)?;
    let all = if ends == 0 {
        Vec::new(alloc)
    } else {
        all_ends(alloc, first, ends)?
    };
    Ok((taker, all))
}

/// One lane more, with so many ends.
pub fn add_lane<T: Fits + Drop>(
    alloc: Global,
    key: Snapshot<T::Key>,
    ends: u32,
    takers: &mut Vec<TakeEnd<T>>,
    rows: &mut Vec<Vec<SendEnd<T>>>,
) -> Result<(), NoMemory>
    ensures takers { OnOk result ((taker : _) × (takers.new.items ≡ takers.old.items ++ taker ∷ []) × IsUntaken key.value taker) }
    ensures rows { OnOk result (AreAllRows takers.old.items ends (map (λ r. r.items) rows.old.items) → AreAllRows takers.new.items ends (map (λ r. r.items) rows.new.items)) }
{
    let (taker, row) = lane_ends(alloc, key, ends)?;
    takers.push(taker)?;
    rows.push(row)?;
    Ok(())
}

/// So many lanes with one key, and their ends by their numbers: at each number one end of each lane, in the order of the lanes.
pub fn lanes<T: Fits + Drop>(
    alloc: Global,
    key: &T::Key,
    many: u32,
    ends: u32,
) -> Result<(Vec<TakeEnd<T>>, Vec<Vec<SendEnd<T>>>), NoMemory>
    ensures many { IfOk result (λ r. length r.0.items ≡ many) }
    ensures takers { IfOk result (λ r. All (IsUntaken key.now) r.0.items) }
    ensures ends { IfOk result (λ r. AreEndColumns r.0.items ends (map (λ c. c.items) r.1.items)) }
{
    let mut takers = Vec::new(alloc);
    let mut rows = Vec::new(alloc);
    'lanes: for _ in 0..many {
        add_lane(alloc, Snapshot::of(key), ends, &mut takers, &mut rows)?;
    }
    let columns = transposed(alloc, rows, ends as usize)?;
    Ok((takers, columns))
}
