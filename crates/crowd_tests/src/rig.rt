// A port with several senders, and the processes that send to it.
ghost use Rattle.std.specs.Prelude.{◌≡◌, ◌<◌, ◌≤◌, [], ◌∷◌, length, IfOk};
ghost use Rattle.port_words.specs.busy.Known.{InRange};
ghost use Rattle.crowd_tests.specs.Sides.{AreFreshSeats, IsFresh};

use port_lanes::{LaneKey, Parcel};
use port_model::{IoVec, Mail, Piece, Task};
use port_words::busy::{PortSeat, QueueLimits, SendSeat, busy_table, msgq_is_busy};
use process_end::{Proc, ProcParts};
use std::alloc::Global;
use std::snapshot::Snapshot;
use std::sync::Wait;
use std::thread::yield_now;
use task_queue::{Item, NoMemory, SendEnd, TakeEnd, lane};

pub(crate) const PERIOD: u64 = 1 << 40;

/// What a process has of one port.
#[derive(Drop)]
pub(crate) struct CrowdSide {
    lane: SendEnd<Parcel>,
    seat: SendSeat,
    soft: bool,
    ghost fresh: { IsFresh lane seat },
}

/// The port's side: its seat of the words, and the end of its lane that takes.
#[derive(Drop)]
pub(crate) struct CrowdPort {
    pub(crate) seat: PortSeat,
    lane: TakeEnd<Parcel>,
    ghost tables: { lane.key.table ≡ seat.table },
}

/// A task that a port took: the number of its sender's end, its own number, and the MSGQ word that was left where it was a command.
#[derive(Drop)]
pub(crate) struct CrowdTask {
    pub(crate) sender: u32,
    pub(crate) seq: u64,
    pub(crate) task: Task,
    pub(crate) msgq: Option<u64>,
}

impl CrowdPort {
    /// Takes the next task, and the bytes of a command away.
    pub(crate) fn take<R: Wait>(&mut self, rt: &R) -> Option<CrowdTask> {
        let Item { sender, seq, value } = self.lane.take(rt)?;
        let (task, weight) = value.into_parts();
        let msgq = match weight {
            Some(weight) => Some(self.seat.removed(rt, weight)),
            None => None,
        };
        Some(CrowdTask {
            sender,
            seq,
            task,
            msgq,
        })
    }

    /// Waits until the message queue is busy.
    pub(crate) fn wait_for_busy<R: Wait>(&mut self, rt: &R) {
        for _ in rt.forever() {
            if msgq_is_busy(self.seat.look_msgq()) {
                return;
            }
            yield_now();
        }
        unreachable!()
    }
}

/// The seats of a new table: the port's, and those of so many senders.
fn table(
    alloc: Global,
    limits: QueueLimits,
    senders: u32,
) -> Result<(PortSeat, Vec<SendSeat>), NoMemory>
    requires senders { (0 < senders) × (senders ≤ 32) }
    requires limits { InRange limits.on limits.low limits.high }
    ensures seats { IfOk result (λ r. AreFreshSeats r.0.table r.1.items) }
    ensures marks { IfOk result (λ r. r.0.known.marks ≡ []) }
{
    let (seat, seats) = busy_table(alloc, limits.on, limits.low, limits.high, senders)?;
    Ok((seat, seats))
}

/// What the processes of a port have of it before each has its own: end 0 of its lane, and the seats of so many senders.
#[derive(Drop)]
pub(crate) struct CrowdSides {
    lane: SendEnd<Parcel>,
    seats: Vec<SendSeat>,
    senders: u32,
    ghost first: { lane.number ≡ 0 },
    ghost unsent: { lane.sent ≡ [] },
    ghost processes: { lane.key.processes ≡ senders },
    ghost fresh: { AreFreshSeats lane.key.table seats.items },
}

impl CrowdSides {
    /// The side of the next process behind the first.
    pub(crate) fn split(&mut self) -> Option<CrowdSide> {
        let lane = self.lane.split().ok()?;
        let seat = self.seats.pop()?;
        if lane.number() >= self.senders {
            return None;
        }
        Some(CrowdSide {
            lane,
            seat,
            soft: false,
        })
    }

    /// The side of the first process.
    pub(crate) fn into_first(self) -> Option<CrowdSide> {
        let CrowdSides {
            lane,
            mut seats,
            senders,
        } = self;
        let seat = seats.pop()?;
        if lane.number() >= senders {
            return None;
        }
        Some(CrowdSide {
            lane,
            seat,
            soft: false,
        })
    }
}

/// A port with so many senders, and their sides.
pub(crate) fn open(
    alloc: Global,
    limits: QueueLimits,
    senders: u32,
) -> Result<(CrowdSides, CrowdPort), NoMemory>
    requires senders { (0 < senders) × (senders ≤ 32) }
    requires limits { InRange limits.on limits.low limits.high }
{
    let (seat, seats) = table(alloc, limits, senders)?;
    let key = LaneKey::new(senders, 0, &seat);
    let (lane, take) = lane::<Parcel>(alloc, Snapshot::of(&key))?;
    let sides = CrowdSides {
        lane,
        seats,
        senders,
    };
    Ok((sides, CrowdPort { seat, lane: take }))
}

/// The mailbox of a process, of which nothing was taken, and the end that puts mail there.
fn mailbox(alloc: Global) -> Result<(SendEnd<Mail>, TakeEnd<Mail>), NoMemory>
    ensures { IfOk result (λ r. r.1.taken ≡ []) }
{
    let (put, take) = lane::<Mail>(alloc, Snapshot::of(&()))?;
    Ok((put, take))
}

/// A list of one.
fn one_of<T: Drop>(alloc: Global, one: T) -> Result<Vec<T>, NoMemory>
    ensures { IfOk result (λ list. list.items ≡ one ∷ []) }
{
    let mut list = Vec::new(alloc);
    list.reserve(1)?;
    list.push_reserved(one);
    Ok(list)
}

/// The process of this side and mailbox.
fn process(alloc: Global, mailbox: TakeEnd<Mail>, side: CrowdSide) -> Result<Proc, NoMemory>
    requires { mailbox.taken ≡ [] }
    ensures { IfOk result (λ proc. length proc.lanes ≡ 1) }
{
    let number = side.lane.number();
    let lanes = one_of(alloc, side.lane)?;
    let seats = one_of(alloc, side.seat)?;
    let soft = one_of(alloc, side.soft)?;
    let parts = ProcParts {
        number,
        mailbox,
        lanes,
        seats,
        soft,
    };
    Ok(Proc::new(alloc, parts))
}

/// The process of this side, and the end that puts mail for it.
pub(crate) fn mailed_process(
    alloc: Global,
    side: CrowdSide,
) -> Result<(Proc, SendEnd<Mail>), NoMemory>
    ensures { IfOk result (λ r. length r.0.lanes ≡ 1) }
{
    let (mail, mailbox) = mailbox(alloc)?;
    let proc = process(alloc, mailbox, side)?;
    Ok((proc, mail))
}

/// A piece of so many bytes.
pub(crate) fn piece(alloc: Global, bytes: usize) -> Option<Piece> {
    Piece::of_vec(vec![in alloc; 0u8; bytes].ok()?).ok()
}

/// A payload of so many bytes.
pub(crate) fn payload(alloc: Global, bytes: usize) -> Option<IoVec> {
    Some(IoVec::of_piece(alloc, piece(alloc, bytes)?))
}

/// The resume of this command of port 0.
pub(crate) fn resume(seq: u64, word: u64) -> Mail {
    Mail::Resume {
        port: 0,
        seq,
        word,
        closed: false,
    }
}
