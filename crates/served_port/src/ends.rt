use async_jobs::Pool;
use ready_select::PollAsk;
use task_queue::SendEnd;

/// Where a port puts what it asks of others: of the poller, and of the workers.
#[derive(Drop)]
pub struct PortEnds {
    pub asks: SendEnd<PollAsk>,
    pub pool: Pool,
}

/// The number of a port, from 0, the process that opens it and is its first owner, how many processes there are, and for how many rows the port gets room at once.
#[derive(Clone, Copy)]
pub struct PortPlace {
    pub number: u32,
    pub owner: u32,
    pub processes: u32,
    /// The list of rows grows where there are more.
    pub rows: usize,
}
