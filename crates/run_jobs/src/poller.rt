ghost use Rattle.std.specs.Prelude.{◌≡◌, List, [], length};
ghost use Rattle.port_words.specs.declared.home.homes.Ticket.{Ticket};
ghost use Rattle.port_model.specs.declared.signal.Sender.TheVariants.{Poller};
ghost use Rattle.ready_select.specs.declared.ask.PollAsk.{PollAsk as Ask};
ghost use Rattle.port_sched.specs.Homes.{AreHomes};
ghost use Rattle.port_sched.specs.Waking.{Woke};
ghost use Rattle.run_jobs.specs.Telling.{AreEndsOf, TellsOf, WakesBy};
ghost use Rattle.run_jobs.specs.Rounds.{tasks_of, told_of, KeptAt, KeptIn, LooksAt, PollsTo, EndsRound, RoundOf};

use crate::stopping::is_stopped;
use crate::telling::tell;
use crate::watch::Watch;
use no_memory::NoMemory;
use outside::PollSet;
use port_model::{Signal, Task};
use port_sched::{Idle, JobSeats, PortBody, ThreadJob};
use port_words::over::OverSeat;
use process_end::Parcel;
use ready_select::{PollAsk, Polled, poll_round};
use std::alloc::Global;
use std::sync::Wait;
use task_queue::SendEnd;

/// How the poller ended.
#[derive(Clone, Copy, Debug, PartialEq, Eq)]
pub enum PollerEnd {
    /// It took a `Finish`.
    Finished,
    /// It found nothing, and the run was stopped.
    Stopped,
    /// A wait of the poll set failed, and the poller stopped the run.
    PollFault,
    /// It found no memory, and stopped the run.
    NoMemory,
}

/// The poller of a run: in rounds it takes what the ports ask and waits once for the armed events, and tells the ports which are ready and which it has given up.
///
/// The ends of lanes stand in the order of the ports. What was found for a port that isn't there is told to nobody.
#[derive(Drop)]
pub struct PollerJob<B: PortBody, S: PollSet> {
    pub alloc: Global,
    pub seats: JobSeats<B>,
    pub over: OverSeat,
    pub watch: Watch<S>,
    pub lanes: Vec<SendEnd<Parcel>>,
    /// How it ended, once it has run.
    pub end: Option<PollerEnd>,
}

// Tells a port what was found.
fn tell_one<B: PortBody, R: Wait>(
    rt: &R,
    lanes: &mut Vec<SendEnd<Parcel>>,
    seats: &mut JobSeats<B>,
    found: PollAsk,
) -> Result<(), NoMemory>
    requires homes { AreHomes seats.old.homes.items }
    requires ports { length seats.old.homes.items ≡ length lanes.old.items }
    requires ends { AreEndsOf Poller lanes.old.items }
    ensures told { TellsOf result (told_of found) lanes.old.items lanes.new.items }
    ensures woke { WakesBy result seats.old seats.new }
{
    match found {
        PollAsk::Arm { port, event, dir } => {
            tell(
                rt,
                seats,
                lanes,
                port,
                Task::new(Signal::Ready { event, dir }),
            )
        }
        PollAsk::Drop { port, event } => {
            tell(rt, seats, lanes, port, Task::new(Signal::Dropped(event)))
        }
        PollAsk::Finish => Ok(()),
    }
}

// Tells the ports what was found, in order.
fn tell_found<B: PortBody, R: Wait>(
    rt: &R,
    lanes: &mut Vec<SendEnd<Parcel>>,
    seats: &mut JobSeats<B>,
    found: &[PollAsk],
) -> Result<(), NoMemory>
    requires homes { AreHomes seats.old.homes.items }
    requires ports { length seats.old.homes.items ≡ length lanes.old.items }
    requires ends { AreEndsOf Poller lanes.old.items }
    ensures told { TellsOf result (tasks_of found.now) lanes.old.items lanes.new.items }
    ensures woke { WakesBy result seats.old seats.new }
{
    'found: for ask in found {
        tell_one(rt, lanes, seats, *ask)?;
    }
    Ok(())
}

// What one round did.
enum RoundEnd {
    /// It waited once, and told what was found.
    Told,
    /// It waited once, and nothing was found.
    Quiet,
    Finished,
    Failed,
    NoMemory,
}

// One round, and what is told after it.
fn round<B: PortBody, S: PollSet, R: Wait>(
    rt: &R,
    alloc: Global,
    watch: &mut Watch<S>,
    lanes: &mut Vec<SendEnd<Parcel>>,
    seats: &mut JobSeats<B>,
) -> RoundEnd
    requires homes { AreHomes seats.old.homes.items }
    requires ports { length seats.old.homes.items ≡ length lanes.old.items }
    requires ends { AreEndsOf Poller lanes.old.items }
    ensures round { RoundOf result
        (record { faults = S.faults watch.old.poll; answered = S.answered watch.old.poll; table = watch.old.table; found = []; lane = watch.old.asks })
        (record { faults = S.faults watch.new.poll; answered = S.answered watch.new.poll; table = watch.new.table; found = []; lane = watch.new.asks })
        lanes.old.items lanes.new.items }
    ensures woke { (kept : List Ticket) × KeptIn result kept × Woke kept seats.old seats.new }
{
    let mut found = Vec::new(alloc);
    let polled = poll_round(
        rt,
        alloc,
        &mut watch.poll,
        &mut watch.table,
        &mut watch.asks,
        &mut found,
    );
    match tell_found(rt, lanes, seats, found.as_slice()) {
        Ok(()) => round_of(polled, found.is_empty()),
        Err(NoMemory) => RoundEnd::NoMemory,
    }
}

// What a round did that told all that it found.
fn round_of(polled: Polled, is_quiet: bool) -> RoundEnd
    ensures ends { (found : List Ask) → EndsRound result polled found [] }
    ensures kept { KeptIn result [] }
{
    match polled {
        Polled::Round if is_quiet => RoundEnd::Quiet,
        Polled::Round => RoundEnd::Told,
        Polled::Finished => RoundEnd::Finished,
        Polled::Failed => RoundEnd::Failed,
        Polled::NoMemory => RoundEnd::NoMemory,
    }
}

// Rounds until there is nothing more to do.
fn poll<B: PortBody, S: PollSet, R: Wait>(
    rt: &R,
    alloc: Global,
    watch: &mut Watch<S>,
    lanes: &mut Vec<SendEnd<Parcel>>,
    seats: &mut JobSeats<B>,
    over: &mut OverSeat,
) -> PollerEnd
    requires homes { AreHomes seats.old.homes.items }
    requires ports { length seats.old.homes.items ≡ length lanes.old.items }
    requires ends { AreEndsOf Poller lanes.old.items }
    ensures polls { PollsTo result
        (record { faults = S.faults watch.old.poll; answered = S.answered watch.old.poll; table = watch.old.table; found = []; lane = watch.old.asks })
        (record { faults = S.faults watch.new.poll; answered = S.answered watch.new.poll; table = watch.new.table; found = []; lane = watch.new.asks })
        lanes.old.items lanes.new.items }
    ensures over { LooksAt result over.old over.new }
    ensures woke { (kept : List Ticket) × KeptAt result kept × Woke kept seats.old seats.new }
{
    let idle = Idle::new();
    'rounds: for _ in rt.forever() {
        match round(rt, alloc, watch, lanes, seats) {
            RoundEnd::Told => idle.reset(),
            RoundEnd::Quiet => {
                if is_stopped(over) {
                    return PollerEnd::Stopped;
                }
                watch.asks.rest(rt, &idle);
            }
            RoundEnd::Finished => return PollerEnd::Finished,
            RoundEnd::Failed => return PollerEnd::PollFault,
            RoundEnd::NoMemory => return PollerEnd::NoMemory,
        }
    }
    unreachable!()
}

impl<B: PortBody, S: PollSet> ThreadJob for PollerJob<B, S> {
    ghost use Rattle.run_jobs.specs.Rounds.{CanPoll, HasPolled};

    ghost can_run = { CanPoll };

    ghost went = { HasPolled S.faults S.answered };

    fn run<R: Wait>(&mut self, rt: &R) {
        self.watch.poll.wake_at(self.watch.asks.waiter());
        let end = poll(
            rt,
            self.alloc,
            &mut self.watch,
            &mut self.lanes,
            &mut self.seats,
            &mut self.over,
        );
        if end == PollerEnd::PollFault || end == PollerEnd::NoMemory {
            self.over.stop();
        }
        self.end = Some(end);
    }
}
