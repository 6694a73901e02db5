// A process with ports, and what stands on their other side.
ghost use Rattle.std.specs.Prelude.{◌≡◌, ◌<◌, ◌≤◌, [], ◌∷◌, length, IfOk};
ghost use Rattle.port_words.specs.declared.busy.view.StatMark.TheVariants.{Busy};
ghost use Rattle.port_words.specs.busy.Known.{InRange};
ghost use Rattle.process_tests.specs.Sides.{AreFreshSeats, IsFresh};

use port_lanes::{LaneKey, Parcel};
use port_model::{Mail, Reason, Signal, Task};
use port_words::busy::{PortSeat, QueueLimits, SendSeat, busy_table};
use process_end::{Proc, ProcEnd, ProcParts};
use std::alloc::Global;
use std::snapshot::Snapshot;
use std::sync::Wait;
use task_queue::{Item, NoMemory, SendEnd, TakeEnd, lane};

pub(crate) fn no_limits() -> QueueLimits
    ensures { InRange result.on result.low result.high }
{
    QueueLimits {
        on: false,
        low: 0,
        high: 0,
    }
}

pub(crate) fn small_limits() -> QueueLimits
    ensures { InRange result.on result.low result.high }
{
    QueueLimits {
        on: true,
        low: 4,
        high: 8,
    }
}

/// What a process has of one port.
#[derive(Drop)]
pub(crate) struct Side {
    lane: SendEnd<Parcel>,
    seat: SendSeat,
    soft: bool,
    ghost fresh: { IsFresh lane seat },
}

/// The port's side: its seat of the words, and the end of its lane that takes.
#[derive(Drop)]
pub(crate) struct WatchedPort {
    pub(crate) seat: PortSeat,
    lane: TakeEnd<Parcel>,
    ghost tables: { lane.key.table ≡ seat.table },
}

/// Of a task that a port took its number, whether it suspends its sender, whether it tells the normal end of process 0, and the MSGQ word
/// that was left where it was a command.
#[derive(Clone, Copy, PartialEq, Eq)]
pub(crate) struct TakenTask {
    pub(crate) seq: u64,
    pub(crate) suspends: bool,
    pub(crate) is_end: bool,
    pub(crate) msgq: Option<u64>,
}

fn is_end(task: &Task) -> bool {
    matches!(task.signal(), Signal::Gone(reason) if reason.is_normal())
}

impl WatchedPort {
    /// Whether its first mark says that it is busy, and leaves the STAT word 5.
    pub(crate) fn marks_busy(&mut self) -> bool
        requires { self.old.seat.known.marks ≡ [] }
        ensures { self.new.seat.known.marks ≡ Busy ∷ [] }
    {
        self.seat.mark(true) == 5
    }

    /// Whether its second mark says that it is free again, and leaves the STAT word 8.
    pub(crate) fn marks_free(&mut self) -> bool
        requires { self.old.seat.known.marks ≡ Busy ∷ [] }
    {
        self.seat.mark(false) == 8
    }

    /// Whether a mark says that it is closed, and leaves this STAT word.
    pub(crate) fn marks_closed(&mut self, stat: u64) -> bool
        requires { length self.old.seat.known.marks < 2 }
    {
        self.seat.mark_closed() == stat
    }

    /// Takes the next task, and the bytes of a command away.
    pub(crate) fn take<R: Wait>(&mut self, rt: &R) -> Option<TakenTask> {
        let Item { seq, value, .. } = self.lane.take(rt)?;
        let (task, weight) = value.into_parts();
        let msgq = match weight {
            Some(weight) => Some(self.seat.removed(rt, weight)),
            None => None,
        };
        Some(TakenTask {
            seq,
            suspends: task.suspends(),
            is_end: is_end(&task),
            msgq,
        })
    }
}

/// The seats of a new table: the port's, and those of so many senders.
fn table(
    alloc: Global,
    limits: QueueLimits,
    senders: u32,
) -> Result<(PortSeat, Vec<SendSeat>), NoMemory>
    requires senders { (0 < senders) × (senders ≤ 32) }
    requires limits { InRange limits.on limits.low limits.high }
    ensures seats { IfOk result (λ r. AreFreshSeats r.0.table r.1.items) }
    ensures marks { IfOk result (λ r. r.0.known.marks ≡ []) }
{
    let (seat, seats) = busy_table(alloc, limits.on, limits.low, limits.high, senders)?;
    Ok((seat, seats))
}

/// A port with one sender, process 0.
pub(crate) fn one_port(
    alloc: Global,
    limits: QueueLimits,
    soft: bool,
) -> Result<(Side, WatchedPort), NoMemory>
    requires { InRange limits.on limits.low limits.high }
    ensures number { IfOk result (λ r. r.0.lane.number ≡ 0) }
    ensures marks { IfOk result (λ r. r.1.seat.known.marks ≡ []) }
{
    let (seat, mut seats) = table(alloc, limits, 1)?;
    // There is a seat, since there is one sender.
    let Some(sender) = seats.pop() else {
        return Err(NoMemory);
    };
    let key = LaneKey::new(1, 0, &seat);
    let (put, take) = lane::<Parcel>(alloc, Snapshot::of(&key))?;
    let side = Side {
        lane: put,
        seat: sender,
        soft,
    };
    Ok((side, WatchedPort { seat, lane: take }))
}

/// The sides of process 0 at two ports without limits, and the ports.
pub(crate) fn two_ports(alloc: Global) -> Result<(Side, Side, WatchedPort, WatchedPort), NoMemory>
    ensures numbers { IfOk result (λ r. (r.0.lane.number ≡ 0) × (r.1.lane.number ≡ 0)) }
    ensures marks { IfOk result (λ r. (r.2.seat.known.marks ≡ []) × (r.3.seat.known.marks ≡ [])) }
{
    let (first, one) = one_port(alloc, no_limits(), false)?;
    let (second, two) = one_port(alloc, no_limits(), false)?;
    Ok((first, second, one, two))
}

/// The mailbox of a process, of which nothing was taken, and the end that puts mail there.
fn mailbox(alloc: Global) -> Result<(SendEnd<Mail>, TakeEnd<Mail>), NoMemory>
    ensures { IfOk result (λ r. r.1.taken ≡ []) }
{
    let (put, take) = lane::<Mail>(alloc, Snapshot::of(&()))?;
    Ok((put, take))
}

/// A list of one.
fn one_of<T: Drop>(alloc: Global, one: T) -> Result<Vec<T>, NoMemory>
    ensures { IfOk result (λ list. list.items ≡ one ∷ []) }
{
    let mut list = Vec::new(alloc);
    list.reserve(1)?;
    list.push_reserved(one);
    Ok(list)
}

/// Process 0 with one port.
fn process(alloc: Global, mailbox: TakeEnd<Mail>, side: Side) -> Result<Proc, NoMemory>
    requires number { side.lane.number ≡ 0 }
    requires untaken { mailbox.taken ≡ [] }
    ensures { IfOk result (λ proc. length proc.lanes ≡ 1) }
{
    let lanes = one_of(alloc, side.lane)?;
    let seats = one_of(alloc, side.seat)?;
    let soft = one_of(alloc, side.soft)?;
    let parts = ProcParts {
        number: 0,
        mailbox,
        lanes,
        seats,
        soft,
    };
    Ok(Proc::new(alloc, parts))
}

/// Process 0 with one port, and the end that puts mail for it.
pub(crate) fn mailed_process(alloc: Global, side: Side) -> Result<(Proc, SendEnd<Mail>), NoMemory>
    requires { side.lane.number ≡ 0 }
    ensures { IfOk result (λ r. length r.0.lanes ≡ 1) }
{
    let (mail, mailbox) = mailbox(alloc)?;
    let proc = process(alloc, mailbox, side)?;
    Ok((proc, mail))
}

/// A list of three.
fn three_of<T: Drop>(alloc: Global, one: T, two: T, three: T) -> Result<Vec<T>, NoMemory>
    ensures { IfOk result (λ list. list.items ≡ one ∷ two ∷ three ∷ []) }
{
    let mut list = Vec::new(alloc);
    list.reserve(3)?;
    list.push_reserved(one);
    list.push_reserved(two);
    list.push_reserved(three);
    Ok(list)
}

/// Process 0 with three ports.
fn process_of_three(
    alloc: Global,
    mailbox: TakeEnd<Mail>,
    one: Side,
    two: Side,
    three: Side,
) -> Result<Proc, NoMemory>
    requires numbers { (one.lane.number ≡ 0) × (two.lane.number ≡ 0) × (three.lane.number ≡ 0) }
    requires untaken { mailbox.taken ≡ [] }
{
    let lanes = three_of(alloc, one.lane, two.lane, three.lane)?;
    let seats = three_of(alloc, one.seat, two.seat, three.seat)?;
    let soft = three_of(alloc, one.soft, two.soft, three.soft)?;
    let parts = ProcParts {
        number: 0,
        mailbox,
        lanes,
        seats,
        soft,
    };
    Ok(Proc::new(alloc, parts))
}

/// Process 0 with three ports, for which nothing puts mail.
pub(crate) fn unmailed_process(
    alloc: Global,
    one: Side,
    two: Side,
    three: Side,
) -> Result<Proc, NoMemory>
    requires { (one.lane.number ≡ 0) × (two.lane.number ≡ 0) × (three.lane.number ≡ 0) }
{
    let (_, mailbox) = mailbox(alloc)?;
    process_of_three(alloc, mailbox, one, two, three)
}

/// What is left of a process that ends normally.
pub(crate) fn end<R: Wait>(rt: &R, proc: Proc) -> Option<ProcEnd> {
    proc.exit_process(rt, Reason::normal()).ok()
}
