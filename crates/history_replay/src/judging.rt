//! Which law a row breaks, and which the end of a history does.
ghost use Rattle.std.specs.Prelude.{◌≡◌, IfOk};
ghost use Rattle.port_history.specs.Lawful.{end_broken, least};
ghost use Rattle.port_history.specs.Opening.{Opening};
ghost use Rattle.port_history.specs.State.{State};
ghost use Rattle.history_state.specs.Kept.{IsStateOf};
ghost use Rattle.history_replay.specs.Walked.{laws_before, laws_behind};

use history_driver::HistoryState;
use port_model::{NoMemory, Row};
use std::alloc::Global;

// The laws of a history, by their numbers.
const ORDER: u32 = 1;

const LIFETIME: u32 = 2;

const BUSY: u32 = 3;

pub(crate) const EFFECTS: u32 = 4;

const MARKS: u32 = 5;

const LISTED: u32 = 6;

const RESUMED: u32 = 7;

const READY: u32 = 8;

const JOBS: u32 = 9;

const END: u32 = 10;

/// The least law before that of effects that the row breaks.
pub(crate) fn broken_before_effects(state: &HistoryState, row: &Row) -> Option<u32>
    ensures { (port : Opening) (s : State) → IsStateOf state.now port s → result ≡ least (laws_before s row.now) 1 }
{
    if !state.keeps_order(row) {
        return Some(ORDER);
    }
    if !state.keeps_lifetime(row) {
        return Some(LIFETIME);
    }
    if !state.keeps_busy(row) {
        return Some(BUSY);
    }
    None
}

/// The least law behind that of effects that the row breaks.
pub(crate) fn broken_behind_effects(
    alloc: Global,
    state: &HistoryState,
    row: &Row,
) -> Result<Option<u32>, NoMemory>
    ensures { IfOk result (λ law. (port : Opening) (s : State) → IsStateOf state.now port s → law ≡ least (laws_behind s row.now) 5) }
{
    if !state.keeps_marks(row) {
        return Ok(Some(MARKS));
    }
    if !state.keeps_listed(row) {
        return Ok(Some(LISTED));
    }
    if !state.keeps_resumed(row) {
        return Ok(Some(RESUMED));
    }
    if !state.keeps_ready(row) {
        return Ok(Some(READY));
    }
    let keeps_jobs = state.keeps_jobs(alloc, row)?;
    if !keeps_jobs {
        return Ok(Some(JOBS));
    }
    Ok(None)
}

/// The least law that an end at this state breaks: a mark that is due is wanting, or the last law isn't kept.
pub(crate) fn broken_by_end(state: &HistoryState) -> Option<u32>
    ensures { (port : Opening) (s : State) → IsStateOf state.now port s → result ≡ end_broken s }
{
    if !state.is_settled() {
        return Some(MARKS);
    }
    if !state.keeps_end() {
        return Some(END);
    }
    None
}
