ghost use Rattle.std.specs.Prelude.{◌≡◌, ◌==◌, ◌<◌, ◌&&◌, not, [], length, vec_len, slice_index, option_to_list, All, OnErr, OnOk, IfOk, IfErr};
ghost use Rattle.port_lanes.specs.port_history.Laws.{waits_where_busy};
ghost use Rattle.waiting_parcels.specs.Waiting.{has_sender};
ghost use Rattle.waiting_parcels.specs.Queues.{lists, queue_of, goes_at, earlier_of, IsChoice, IsTaken, IsQueued};

use crate::NoMemory;
use crate::arrival::{Arrival, Head};
use port_lanes::Parcel;
use std::alloc::Global;
use std::collections::VecDeque;
use task_queue::Item;

/// An empty queue for each sender.
pub(crate) fn empty_queues(alloc: Global, senders: u32) -> Result<Vec<VecDeque<Arrival>>, NoMemory>
    ensures len { IfOk result (λ queues. vec_len queues ≡ senders) }
    ensures empty { IfOk result (λ queues. All (λ queue. queue ≡ []) (lists queues.items)) }
{
    let mut queues = Vec::with_capacity(alloc, senders as usize)?;
    for _ in 0..senders {
        queues.push(VecDeque::new(alloc))?;
    }
    Ok(queues)
}

/// The task is a command that isn't forced, and the port is busy.
fn is_blocked(item: &Item<Parcel>, busy: bool) -> bool
    ensures { result ≡ (busy && waits_where_busy item.now.value.task) }
{
    let task = item.value.task();
    busy && task.signal().is_command() && !task.is_forced()
}

/// The stamp of a queue's first task, if that task may go.
fn stamp_to_go(queue: &VecDeque<Arrival>, busy: bool) -> Option<u64>
    ensures { result ≡ goes_at busy queue.now.items }
{
    let first = queue.front()?;
    if is_blocked(&first.item, busy) {
        None
    } else {
        Some(first.stamp)
    }
}

fn earlier(first: Option<Head>, place: usize, stamp: Option<u64>) -> Option<Head>
    ensures { result ≡ earlier_of first place stamp }
{
    match (first, stamp) {
        (_, None) => first,
        (Some(head), Some(stamp)) if head.stamp <= stamp => Some(head),
        (_, Some(stamp)) => Some(Head { place, stamp }),
    }
}

/// The first task that goes. It looks at the first task of each sender that waits.
pub(crate) fn first_to_go(queues: &[VecDeque<Arrival>], waiting: &[u32], busy: bool) -> Option<Head>
    requires { All (λ n. n < length queues.now) waiting.now }
    ensures { IsChoice busy (lists queues.now) waiting.now waiting.now result }
{
    let mut first = None;
    for (place, sender) in waiting.iter().enumerate() {
        let stamp = stamp_to_go(&queues[*sender as usize], busy);
        first = earlier(first, place, stamp);
    }
    first
}

/// There is a task, and it is of this sender.
pub(crate) fn is_from(newest: &Option<Item<Parcel>>, sender: u32) -> bool
    ensures { result ≡ has_sender sender (option_to_list newest.now) }
{
    match newest {
        Some(item) => item.sender == sender,
        None => false,
    }
}

/// A task that came after all of the queues may go.
pub(crate) fn last_may_go(queues: &[VecDeque<Arrival>], item: &Item<Parcel>, busy: bool) -> bool
    requires { item.now.sender < length queues.now }
    ensures { result ≡ ((length (queue_of item.now.sender (lists queues.now)) == 0) && not (busy && waits_where_busy item.now.value.task)) }
{
    queues[item.sender as usize].is_empty() && !is_blocked(item, busy)
}

/// Takes the first task of the queue of the sender at a place of `waiting`.
pub(crate) fn take_from(
    queues: &mut [VecDeque<Arrival>],
    waiting: &mut Vec<u32>,
    place: usize,
) -> Arrival
    requires within { place < length waiting.old.items }
    requires known { slice_index waiting.old.items place < length queues.old }
    requires some { 0 < length (queue_of (slice_index waiting.old.items place) (lists queues.old)) }
    ensures { IsTaken (lists queues.old) (lists queues.new) waiting.old.items waiting.new.items place result }
{
    let queue = &mut queues[waiting[place] as usize];
    let Some(arrival) = queue.pop_front() else {
        unreachable!();
    };
    if queue.is_empty() {
        waiting.swap_remove(place);
    }
    arrival
}

/// Puts a task at the end of its sender's queue. A refused one comes back.
pub(crate) fn put_behind(
    queues: &mut [VecDeque<Arrival>],
    waiting: &mut Vec<u32>,
    arrival: Arrival,
) -> Result<(), Arrival>
    requires { arrival.item.sender < length queues.old }
    ensures ok { OnOk result (IsQueued (lists queues.old) (lists queues.new) waiting.old.items waiting.new.items arrival) }
    ensures queues { OnErr result (lists queues.new ≡ lists queues.old) }
    ensures waiting { OnErr result (waiting.new.items ≡ waiting.old.items) }
    ensures back { IfErr result (λ refused. refused ≡ arrival) }
{
    let sender = arrival.item.sender;
    let queue = &mut queues[sender as usize];
    let starts = queue.is_empty();
    if starts && waiting.reserve(1).is_err() {
        return Err(arrival);
    }
    match queue.push_back(arrival) {
        Ok(()) => {
            if starts {
                waiting.push_reserved(sender);
            }
            Ok(())
        }
        Err(failed) => Err(failed.value),
    }
}
