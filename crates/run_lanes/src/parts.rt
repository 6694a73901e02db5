use async_jobs::{Pool, WorkItem};
use port_mail::Mailboxes;
use port_model::Mail;
use port_words::busy::{PortSeat, SendSeat};
use process_end::Parcel;
use ready_select::PollAsk;
use task_queue::{SendEnd, TakeEnd};

/// What a port has beside its driver and its options: the taking end of its lane, an end of each process's mailbox, its seat of its words, and its ends of the
/// poller's lane and of the workers' lanes. Processes and workers stand by their numbers.
#[derive(Drop)]
pub struct PortLanes {
    pub lane: TakeEnd<Parcel>,
    pub mailboxes: Mailboxes,
    pub seat: PortSeat,
    pub asks: SendEnd<PollAsk>,
    pub pool: Pool,
}

/// What a process has: its mailbox, and of each port, in their order, an end of its lane and a seat of its words.
#[derive(Drop)]
pub struct ProcessLanes {
    pub mailbox: TakeEnd<Mail>,
    pub lanes: Vec<SendEnd<Parcel>>,
    pub seats: Vec<SendSeat>,
}

/// What a worker has: its jobs, and an end of the lane of each port, in their order.
#[derive(Drop)]
pub struct WorkerLanes {
    pub jobs: TakeEnd<WorkItem>,
    pub lanes: Vec<SendEnd<Parcel>>,
}

/// What the poller has: what the ports ask, and an end of the lane of each port, in their order.
#[derive(Drop)]
pub struct PollerLanes {
    pub asks: TakeEnd<PollAsk>,
    pub lanes: Vec<SendEnd<Parcel>>,
}

/// The ends by which the poller and the workers, in their order, are told that nothing more will come. They come after those of the ports.
#[derive(Drop)]
pub struct FinishEnds {
    pub poller: SendEnd<PollAsk>,
    pub workers: Vec<SendEnd<WorkItem>>,
}

/// The lanes and words of a run, dealt to those who use them. Ports, processes and workers stand by their numbers.
#[derive(Drop)]
pub struct RunLanes {
    pub ports: Vec<PortLanes>,
    pub processes: Vec<ProcessLanes>,
    pub workers: Vec<WorkerLanes>,
    pub poller: PollerLanes,
    pub finish: FinishEnds,
}
