ghost use Rattle.std.specs.Prelude.{◌≡◌, ◌+◌, ◌^◌, ◌<◌, ◌≤◌, length};

use port_words::busy::{
    AddHow, Added, PortSeat, SendSeat, Weight, busy_table, msgq_is_busy, msgq_period, stat_busy,
    stat_closed, stat_marks,
};
use std::process::Abort;
use std::sync::Wait;
use std::test::Fail;
use std::thread::{Threads, join};

const PERIOD: u64 = 1 << 40;

// An add that is not refused.
fn add<R: Wait + Abort>(rt: &R, sender: &mut SendSeat, n: u32, how: AddHow) -> (u64, Weight)
    requires small { n ≤ 262143 }
    requires few { length sender.old.sender.ledger.adds < 131072 }
    ensures weight { (result.1.table ≡ sender.old.table) × (result.1.name.sender ≡ sender.old.sender.ledger.number) }
    ensures sender { (sender.new.table ≡ sender.old.table) × (sender.new.sender.ledger.number ≡ sender.old.sender.ledger.number) }
    ensures adds { length sender.new.sender.ledger.adds ≡ length sender.old.sender.ledger.adds + 1 }
{
    match sender.add_command(rt, n, how) {
        Added::Added { msgq, weight } => (msgq, weight),
        Added::Busy { .. } => panic!(rt; "the add is refused"),
    }
}

// The word of the queue at an add without suspension that the queue's limits refuse.
fn refused<R: Wait + Abort>(rt: &R, sender: &mut SendSeat, n: u32) -> u64
    requires small { n ≤ 262143 }
    requires few { length sender.old.sender.ledger.adds < 131072 }
    ensures sender { (sender.new.table ≡ sender.old.table) × (sender.new.sender.ledger.number ≡ sender.old.sender.ledger.number) }
    ensures adds { length sender.new.sender.ledger.adds ≤ length sender.old.sender.ledger.adds + 1 }
{
    match sender.add_command(rt, n, AddHow::NoSuspend) {
        Added::Busy { msgq } => msgq,
        Added::Added { .. } => panic!(rt; "the queue is busy"),
    }
}

/// Ends the test where another word was found than the wanted one.
pub fn same<R: Abort>(rt: &R, found: u64, wanted: u64) {
    assert_eq!(rt; found, wanted);
}

#[test]
fn the_queue_is_busy_between_its_limits(rt: HostRuntime) -> Result<(), Fail> {
    let (mut port, mut seats) = busy_table(rt.alloc(), true, 4, 8, 1)?;
    let mut sender = seats.pop().ok_or("no sender")?;
    let (word, four) = add(&rt, &mut sender, 4, AddHow::Plain);
    same(&rt, word, 4);
    let (word, one) = add(&rt, &mut sender, 1, AddHow::NoSuspend);
    same(&rt, word, 5);
    let (word, three) = add(&rt, &mut sender, 3, AddHow::Plain);
    same(&rt, word, PERIOD + 8);
    same(&rt, port.removed(&rt, four), PERIOD + 4);
    same(&rt, refused(&rt, &mut sender, 1), PERIOD + 4);
    same(&rt, port.removed(&rt, one), 2 * PERIOD + 3);
    same(&rt, sender.undo(&rt, three), 2 * PERIOD);
    same(&rt, sender.look_msgq(), 2 * PERIOD);
    same(&rt, port.look_msgq(), 2 * PERIOD);
    port.join(sender);
    Ok(())
}

#[test]
fn senders_see_the_marks_of_the_port(rt: HostRuntime) -> Result<(), Fail> {
    let (mut port, mut seats) = busy_table(rt.alloc(), false, 0, 0, 1)?;
    let mut sender = seats.pop().ok_or("no sender")?;
    let busy = (port.mark(true), sender.look());
    let free = (port.mark(false), sender.look());
    let closed = (port.mark_closed(), sender.look());
    assert!(rt; busy == (5, 5) && free == (8, 8) && closed == (14, 14));
    Ok(())
}

#[test]
fn words_are_read_by_their_parts(rt: HostRuntime) {
    let closed = (stat_marks(14), stat_closed(14), stat_busy(14));
    let busy = (stat_marks(5), stat_closed(5), stat_busy(5));
    let full = (msgq_period(PERIOD + 8), msgq_is_busy(PERIOD + 8));
    assert!(rt; closed == (3, true, false) && busy == (1, false, true) && full == (1, true));
}

#[test]
fn several_senders_fill_one_queue(rt: HostRuntime) -> Result<(), Fail> {
    let (mut port, mut seats) = busy_table(rt.alloc(), true, 4, 8, 3)?;
    let mut third = seats.pop().ok_or("no third")?;
    let mut second = seats.pop().ok_or("no second")?;
    let mut first = seats.pop().ok_or("no first")?;
    let (word, three) = add(&rt, &mut first, 3, AddHow::Plain);
    same(&rt, word, 3);
    let (word, five) = add(&rt, &mut second, 5, AddHow::NoSuspend);
    same(&rt, word, PERIOD + 8);
    same(&rt, refused(&rt, &mut third, 1), PERIOD + 8);
    let (word, seven) = add(&rt, &mut third, 7, AddHow::Forced);
    same(&rt, word, PERIOD + 15);
    same(&rt, first.undo(&rt, three), PERIOD + 12);
    same(&rt, port.removed(&rt, seven), PERIOD + 5);
    same(&rt, port.removed(&rt, five), 2 * PERIOD);
    same(&rt, second.look_msgq(), 2 * PERIOD);
    port.join(first);
    port.join(second);
    port.join(third);
    Ok(())
}

// Adds ten bytes, and hands the seat back with the weight.
fn add_ten<R: Wait + Abort>(rt: &R, mut sender: SendSeat) -> (SendSeat, Weight)
    requires { length sender.sender.ledger.adds < 131072 }
    ensures { (result.0.table ≡ sender.table) × (result.1.table ≡ sender.table) × (length result.0.sender.ledger.adds ≡ length sender.sender.ledger.adds + 1) }
{
    let (_, weight) = add(rt, &mut sender, 10, AddHow::Plain);
    (sender, weight)
}

fn add_twenty<R: Threads + Wait + Abort + Sync>(
    rt: &R,
    a: SendSeat,
    b: SendSeat,
) -> ((SendSeat, Weight), (SendSeat, Weight))
    requires { (length a.sender.ledger.adds < 131072) × (length b.sender.ledger.adds < 131072) }
    ensures a { (result.0.0.table ≡ a.table) × (result.0.1.table ≡ a.table) × (length result.0.0.sender.ledger.adds ≡ length a.sender.ledger.adds + 1) }
    ensures b { (result.1.0.table ≡ b.table) × (result.1.1.table ≡ b.table) × (length result.1.0.sender.ledger.adds ≡ length b.sender.ledger.adds + 1) }
{
    join(rt, move || add_ten(rt, a), move || add_ten(rt, b))
}

// The port takes both seats in; their weights stay in the queue.
fn join_all(port: &mut PortSeat, pair: ((SendSeat, Weight), (SendSeat, Weight)))
    requires { (pair.0.0.table ≡ port.old.table) × (pair.1.0.table ≡ port.old.table) }
    ensures { port.new.table ≡ port.old.table }
{
    let (a, b) = pair;
    let (first, _one) = a;
    let (second, _two) = b;
    port.join(first);
    port.join(second);
}

#[test]
fn what_two_and_four_threads_add_is_in_the_queue(rt: HostRuntime) -> Result<(), Fail> {
    let (mut port, mut seats) = busy_table(rt.alloc(), false, 0, 0, 4)?;
    let fourth = seats.pop().ok_or("no fourth")?;
    let third = seats.pop().ok_or("no third")?;
    let second = seats.pop().ok_or("no second")?;
    let first = seats.pop().ok_or("no first")?;
    let ((first, one), (second, two)) = add_twenty(&rt, first, second);
    same(&rt, port.look_msgq(), 20);
    port.removed(&rt, one);
    same(&rt, port.removed(&rt, two), 0);
    let (left, right) = join(
        &rt,
        || add_twenty(&rt, first, second),
        || add_twenty(&rt, third, fourth),
    );
    join_all(&mut port, left);
    join_all(&mut port, right);
    same(&rt, port.look_msgq(), 40);
    Ok(())
}

fn close(mut port: PortSeat) -> PortSeat
    requires { length port.known.marks < 2 ^ 60 }
    ensures { (result.table ≡ port.table) × (length result.known.marks ≡ length port.known.marks + 1) }
{
    port.mark_closed();
    port
}

fn look(mut sender: SendSeat) -> (SendSeat, u64)
    ensures { result.0.table ≡ sender.table }
{
    let stat = sender.look();
    (sender, stat)
}

fn close_and_look<R: Threads + Sync>(
    rt: &R,
    port: PortSeat,
    sender: SendSeat,
) -> (PortSeat, (SendSeat, u64))
    requires { length port.known.marks < 2 ^ 60 }
    ensures port { (result.0.table ≡ port.table) × (length result.0.known.marks ≡ length port.known.marks + 1) }
    ensures sender { result.1.0.table ≡ sender.table }
{
    join(rt, move || close(port), move || look(sender))
}

fn look_both<R: Threads + Sync>(
    rt: &R,
    a: SendSeat,
    b: SendSeat,
) -> ((SendSeat, u64), (SendSeat, u64))
    ensures { (result.0.0.table ≡ a.table) × (result.1.0.table ≡ b.table) }
{
    join(rt, move || look(a), move || look(b))
}

// Ends the test where neither of two words was found.
fn one_of<R: Abort>(rt: &R, found: u64, one: u64, other: u64) {
    assert!(rt;
        found == one || found == other,
        "{found} is neither {one} nor {other}"
    );
}

#[test]
fn two_and_four_threads_see_the_marks(rt: HostRuntime) -> Result<(), Fail> {
    let (port, mut seats) = busy_table(rt.alloc(), false, 0, 0, 3)?;
    let third = seats.pop().ok_or("no third")?;
    let second = seats.pop().ok_or("no second")?;
    let first = seats.pop().ok_or("no first")?;
    let (port, (first, found)) = close_and_look(&rt, port, first);
    one_of(&rt, found, 0, 6);
    let (left, right) = join(
        &rt,
        || close_and_look(&rt, port, first),
        || look_both(&rt, second, third),
    );
    let (mut port, (mut first, found)) = left;
    let ((second, also_found), (third, _)) = right;
    one_of(&rt, found, 6, 10);
    one_of(&rt, also_found, 6, 10);
    same(&rt, first.look(), 10);
    port.join(first);
    port.join(second);
    port.join(third);
    Ok(())
}
