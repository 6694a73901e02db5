ghost use Rattle.std.specs.Prelude.{◌≡◌, true, IfSome};
ghost use Rattle.port_model.specs.Signals.{data_size, is_command};

use crate::checks::is_right;
use port_model::{IoVec, Piece, Signal, Task};
use port_words::busy::{AddHow, Added, busy_table};
use std::alloc::Global;
use std::sync::Wait;
use waiting_parcels::{Item, Parcel, WaitingList};

/// A command of no bytes, forced or not.
fn command(alloc: Global, is_forced: bool) -> Task
    ensures command { is_command result.signal ≡ true }
    ensures size { data_size result.signal ≡ 0 }
{
    let signal = Signal::Command(IoVec::new(alloc));
    if is_forced {
        Task::forced(signal)
    } else {
        Task::new(signal)
    }
}

/// A command of sender 0 in its parcel, weighed by the seat of its sender.
fn weighed<R: Wait>(rt: &R, alloc: Global, is_forced: bool) -> Option<Item<Parcel>>
    ensures { IfSome result (λ item. item.sender ≡ 0) }
{
    let (_port, mut seats) = busy_table(alloc, true, 4, 8, 1).ok()?;
    let mut seat = seats.pop()?;
    match seat.add_command(rt, 0, AddHow::Plain) {
        Added::Added { weight, .. } => Some(Item {
            sender: 0,
            seq: 0,
            value: Parcel::command(command(alloc, is_forced), weight),
        }),
        Added::Busy { .. } => None,
    }
}

fn control(sender: u32, seq: u64) -> Item<Parcel>
    ensures { result.sender ≡ sender }
{
    let task = Task::new(Signal::Control {
        op: 0,
        bytes: Piece::empty(),
    });
    Item {
        sender,
        seq,
        value: Parcel::plain(task),
    }
}

fn is_send<T: Send>(_value: &T) -> bool {
    true
}

/// A command and a control of sender 0, and between them a control of sender 1.
fn two_senders<R: Wait>(rt: &R, alloc: Global, is_forced: bool) -> Option<WaitingList>
    ensures { IfSome result (λ list. list.senders ≡ 3) }
{
    let mut list = WaitingList::new(alloc, 3).ok()?;
    list.push(weighed(rt, alloc, is_forced)?);
    list.reserve().ok()?;
    list.push(control(1, 0));
    list.reserve().ok()?;
    list.push(control(0, 1));
    Some(list)
}

/// The sender and the number of the task that goes.
fn goes(list: &mut WaitingList, busy: bool) -> Option<(u32, u64)>
    ensures { list.new.senders ≡ list.old.senders }
{
    let item = list.take_first(busy)?;
    Some((item.sender, item.seq))
}

/// Whether these tasks go, one after another.
fn go(list: &mut WaitingList, busy: bool, tasks: &[Option<(u32, u64)>]) -> bool {
    for task in tasks {
        if goes(list, busy) != *task {
            return false;
        }
    }
    true
}

/// Whether the control of sender 1 goes alone.
fn lets_control_go(list: &mut WaitingList) -> bool
    requires { list.old.senders ≡ 3 }
{
    goes(list, true) == Some((1, 0))
        && goes(list, true).is_none()
        && !list.has_sender(1)
        && list.has_sender(0)
}

/// Whether a busy port handles the control of sender 1 alone, of three tasks that wait behind no forced command.
fn handles_control<R: Wait>(rt: &R, alloc: Global) -> bool {
    match two_senders(rt, alloc, false) {
        Some(mut list) => is_send(&list) && list.len() == 3 && lets_control_go(&mut list),
        None => false,
    }
}

#[test]
fn a_busy_port_handles_what_waits_behind_no_command(rt: HostRuntime) {
    is_right(&rt, handles_control(&rt, rt.alloc()));
}

/// All tasks in the order of their arrival, and then none.
const IN_ORDER: [Option<(u32, u64)>; 4] = [Some((0, 0)), Some((1, 0)), Some((0, 1)), None];

/// Whether all tasks go in the order of their arrival, and none is left.
fn handles_all<R: Wait>(rt: &R, alloc: Global, is_forced: bool, busy: bool) -> bool {
    match two_senders(rt, alloc, is_forced) {
        Some(mut list) => go(&mut list, busy, &IN_ORDER) && list.is_empty(),
        None => false,
    }
}

#[test]
fn a_busy_port_handles_a_forced_command(rt: HostRuntime) {
    is_right(&rt, handles_all(&rt, rt.alloc(), true, true));
}

#[test]
fn a_free_port_handles_what_waits_in_the_order_of_arrival(rt: HostRuntime) {
    is_right(&rt, handles_all(&rt, rt.alloc(), false, false));
}
