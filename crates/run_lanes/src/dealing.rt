// What was made becomes what each port, each process and each worker has.
ghost use Rattle.std.specs.Prelude.{◌≡◌, ◌+◌, ◌<◌, ◌∷◌, length, vec_len, map, All, IfOk};
ghost use Rattle.std.specs.Vec.Iter.{into_iter_items, into_iter_len};
ghost use Rattle.run_lanes.specs.Dealt.{ArePorts, AreProcesses, AreWorkers};

use crate::parts::{PortLanes, ProcessLanes, WorkerLanes};
use async_jobs::{Pool, WorkItem};
use no_memory::NoMemory;
use port_mail::Mailboxes;
use port_model::Mail;
use port_words::busy::{PortSeat, SendSeat};
use process_end::Parcel;
use ready_select::PollAsk;
use std::alloc::Global;
use std::vec::IntoIter;
use task_queue::{SendEnd, TakeEnd};

/// The next of a list that has one.
pub fn next_of<X: Drop>(items: &mut IntoIter<X>) -> X
    requires { 0 < into_iter_len items.old }
    ensures items { into_iter_items items.old ≡ result ∷ into_iter_items items.new }
    ensures len { into_iter_len items.new + 1 ≡ into_iter_len items.old }
{
    let Some(item) = items.next() else {
        unreachable!();
    };
    item
}

/// The ports, by their numbers.
pub(crate) fn deal_ports(
    alloc: Global,
    lanes: Vec<TakeEnd<Parcel>>,
    mail: Vec<Vec<SendEnd<Mail>>>,
    seats: Vec<PortSeat>,
    asks: Vec<SendEnd<PollAsk>>,
    pools: Vec<Vec<SendEnd<WorkItem>>>,
) -> Result<Vec<PortLanes>, NoMemory>
    requires many { (length mail.items ≡ length lanes.items) × (length seats.items ≡ length lanes.items) × (length asks.items ≡ length lanes.items) × (length pools.items ≡ length lanes.items) }
    requires workers { All (λ p. 0 < vec_len p) pools.items }
    ensures { IfOk result (λ all. ArePorts lanes.items (map (λ m. m.items) mail.items) seats.items asks.items (map (λ p. p.items) pools.items) all.items) }
{
    let ports = lanes.len();
    let mut lanes = lanes.into_iter();
    let mut mail = mail.into_iter();
    let mut seats = seats.into_iter();
    let mut asks = asks.into_iter();
    let mut pools = pools.into_iter();
    let mut all = Vec::new(alloc);
    'ports: for _ in 0..ports {
        let lane = next_of(&mut lanes);
        let mailboxes = next_of(&mut mail);
        let seat = next_of(&mut seats);
        let asks = next_of(&mut asks);
        let pool = next_of(&mut pools);
        all.push(PortLanes {
            lane,
            mailboxes: Mailboxes::new(mailboxes),
            seat,
            asks,
            pool: Pool::new(pool),
        })?;
    }
    Ok(all)
}

/// The processes, by their numbers.
pub(crate) fn deal_processes(
    alloc: Global,
    mailboxes: Vec<TakeEnd<Mail>>,
    lanes: Vec<Vec<SendEnd<Parcel>>>,
    seats: Vec<Vec<SendSeat>>,
) -> Result<Vec<ProcessLanes>, NoMemory>
    requires { (length lanes.items ≡ length mailboxes.items) × (length seats.items ≡ length mailboxes.items) }
    ensures { IfOk result (λ all. AreProcesses mailboxes.items (map (λ l. l.items) lanes.items) (map (λ s. s.items) seats.items) all.items) }
{
    let processes = mailboxes.len();
    let mut mailboxes = mailboxes.into_iter();
    let mut lanes = lanes.into_iter();
    let mut seats = seats.into_iter();
    let mut all = Vec::new(alloc);
    'processes: for _ in 0..processes {
        let mailbox = next_of(&mut mailboxes);
        let lanes = next_of(&mut lanes);
        let seats = next_of(&mut seats);
        all.push(ProcessLanes {
            mailbox,
            lanes,
            seats,
        })?;
    }
    Ok(all)
}

/// The workers, by their numbers.
pub(crate) fn deal_workers(
    alloc: Global,
    jobs: Vec<TakeEnd<WorkItem>>,
    lanes: Vec<Vec<SendEnd<Parcel>>>,
) -> Result<Vec<WorkerLanes>, NoMemory>
    requires { length lanes.items ≡ length jobs.items }
    ensures { IfOk result (λ all. AreWorkers jobs.items (map (λ l. l.items) lanes.items) all.items) }
{
    let workers = jobs.len();
    let mut jobs = jobs.into_iter();
    let mut lanes = lanes.into_iter();
    let mut all = Vec::new(alloc);
    'workers: for _ in 0..workers {
        let jobs = next_of(&mut jobs);
        let lanes = next_of(&mut lanes);
        all.push(WorkerLanes { jobs, lanes })?;
    }
    Ok(all)
}
