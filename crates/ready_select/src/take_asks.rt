ghost use Rattle.std.specs.Prelude.{List};
ghost use Rattle.std.specs.List.Sorted.{IsStrictlySortedBy};
ghost use Rattle.task_queue.specs.declared.item.Item.{Item as TheItem};
ghost use Rattle.ready_select.specs.declared.ask.PollAsk.{PollAsk as Ask};
ghost use Rattle.ready_select.specs.Order.{armed_cmp};
ghost use Rattle.ready_select.specs.Polling.{TookAsks, EndsTaking};

use crate::armed::{Armed, settle};
use crate::ask::PollAsk;
use std::sync::Wait;
use task_queue::TakeEnd;

/// How many asks a round takes at most.
const MOST: u32 = 1024;

/// Why a round takes no more asks.
#[derive(Clone, Copy, Debug, PartialEq, Eq)]
pub enum Taken {
    /// No more were there, or a round takes no more.
    All,
    Finished,
    NoMemory,
}

/// Takes the asks that are there, up to a `Finish`.
pub(crate) fn take_asks<R: Wait>(
    rt: &R,
    entries: &mut Vec<Armed>,
    asks: &mut TakeEnd<PollAsk>,
    found: &mut Vec<PollAsk>,
) -> Taken
    requires { IsStrictlySortedBy armed_cmp entries.old.items }
    ensures took { (items : List (TheItem Ask)) × TookAsks items asks.old asks.new entries.old.items entries.new.items found.old.items found.new.items × EndsTaking result items asks.new }
    ensures rising { IsStrictlySortedBy armed_cmp entries.new.items }
{
    for taken in 0..MOST {
        if entries.reserve(1).is_err() {
            return Taken::NoMemory;
        }
        if found.reserve(1).is_err() {
            return Taken::NoMemory;
        }
        let Some(item) = asks.take(rt) else {
            return Taken::All;
        };
        let ask = item.value;
        settle(entries, found, ask);
        if let PollAsk::Finish = ask {
            return Taken::Finished;
        }
    }
    Taken::All
}
