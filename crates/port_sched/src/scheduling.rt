ghost use Rattle.std.specs.Prelude.{◌≡◌, ◌<◌, ◌≤◌, ◌^◌, List, [], ◌∷◌, length, IfSome, IfNone, OnOk, OnErr, IsTrue, option_to_list};
ghost use Rattle.port_words.specs.over.Over.{HasNotStopped};
ghost use Rattle.port_words.specs.declared.home.homes.Ticket.{Ticket};
ghost use Rattle.port_sched.specs.Counts.{AreCounts, Begin, KeepsCounts};
ghost use Rattle.port_sched.specs.Homes.{AreHomes, HomesUse, FoundNotIdleAt};
ghost use Rattle.port_sched.specs.Running.{Looked, Stopped, SawTheEnd, IsDone, IsNoMemory};
ghost use Rattle.port_sched.specs.Serving.{GoesOn, IsMore, KeptBy, KeptAtEnd, QueuedNext, KeptNext};
ghost use Rattle.port_sched.specs.Tickets.{Serves};

use crate::body::{PortBody, Turn};
use crate::counts::TurnCounts;
use crate::turns::{Home, claim_turn, idle_turn, next_ticket};
use no_memory::NoMemory;
use outside::Gate;
use port_words::home::Ticket;
use port_words::over::OverSeat;
use run_queue::RunSeat;
use std::sync::Wait;
use wake_ups::Idle;

/// How a scheduler ended.
#[derive(Clone, Copy, Debug, PartialEq, Eq)]
pub enum SchedEnd {
    /// The run was over: all had finished, or somebody had stopped it.
    Done,
    /// A turn or a push found no memory, and this scheduler stopped the run.
    NoMemory,
}

/// What one scheduler has: a seat of each port's home, in the order of ports, its seat of the queues, and its seat of OVER.
#[derive(Drop)]
pub struct SchedSeats<B: PortBody> {
    pub homes: Vec<Home<B>>,
    pub run: RunSeat,
    pub over: OverSeat,
}

const ONE_STOP: u64 = 1 << 32;

// Whether all have finished, or somebody has stopped the run.
fn is_over(over: &mut OverSeat) -> bool
    ensures looked { Looked over.old over.new }
    ensures over { IsTrue result → SawTheEnd over.old over.new }
{
    let word = over.look();
    word / ONE_STOP > 0 || word % ONE_STOP == u64::from(over.counted())
}

// The ticket's turn, on the home of its port.
fn claim_at<B: PortBody, G: Gate, R: Wait>(
    rt: &R,
    homes: &mut Vec<Home<B>>,
    port: usize,
    ticket: Ticket,
    gate: &G,
    counts: &mut TurnCounts,
) -> Option<Turn>
    requires homes { AreHomes homes.old.items }
    requires port { (port < length homes.old.items) × (ticket.port ≡ port) }
    ensures homes { AreHomes homes.new.items × HomesUse (ticket ∷ []) [] homes.old.items homes.new.items }
    ensures counts { KeepsCounts counts.old homes.old.items counts.new homes.new.items }
{
    let turn = claim_turn(rt, &mut homes[port], ticket, gate)?;
    counts.add_queued();
    Some(turn)
}

// A turn without a ticket.
fn idle_at<B: PortBody, G: Gate, R: Wait>(
    rt: &R,
    homes: &mut Vec<Home<B>>,
    port: usize,
    gate: &G,
    counts: &mut TurnCounts,
) -> Option<Turn>
    requires homes { AreHomes homes.old.items }
    requires port { (port < length homes.old.items) × (port < 2 ^ 32) }
    ensures homes { AreHomes homes.new.items × HomesUse [] [] homes.old.items homes.new.items }
    ensures counts { KeepsCounts counts.old homes.old.items counts.new homes.new.items }
{
    let turn = idle_turn(rt, &mut homes[port], port as u32, gate)?;
    counts.add_idle();
    Some(turn)
}

// The ticket of the next turn of this port.
pub(crate) fn ticket_at<B: PortBody>(homes: &mut Vec<Home<B>>, port: usize) -> Option<Ticket>
    requires homes { AreHomes homes.old.items }
    requires port { port < length homes.old.items }
    ensures homes { AreHomes homes.new.items × HomesUse [] (option_to_list result) homes.old.items homes.new.items }
    ensures port { IfSome result (λ t. t.port ≡ port) }
    ensures busy { IfNone result (FoundNotIdleAt port homes.new.items) }
    ensures begun { Begin 0 0 homes.old.items homes.new.items }
{
    next_ticket(&mut homes[port])
}

// What follows a turn: where there may be more to do, the next turn is queued. Answers whether there may be.
fn follow<B: PortBody>(
    homes: &mut Vec<Home<B>>,
    run: &mut RunSeat,
    port: usize,
    turn: Option<Turn>,
) -> Result<bool, NoMemory>
    requires homes { AreHomes homes.old.items }
    requires port { port < length homes.old.items }
    ensures answer { GoesOn turn result }
    ensures next { IsMore turn → OnOk result (QueuedNext port homes.old.items run.old homes.new.items run.new) }
    ensures homes { AreHomes homes.new.items }
    ensures tickets { (kept : List Ticket) × KeptBy result kept × Serves [] kept homes.old.items run.old homes.new.items run.new }
    ensures begun { Begin 0 0 homes.old.items homes.new.items }
{
    match turn {
        None | Some(Turn::Idle) => Ok(false),
        Some(Turn::NoMemory) => Err(NoMemory),
        Some(Turn::More) => {
            queue_next(homes, run, port)?;
            Ok(true)
        }
    }
}

// Queues the next turn of this port, where it is idle.
fn queue_next<B: PortBody>(
    homes: &mut Vec<Home<B>>,
    run: &mut RunSeat,
    port: usize,
) -> Result<(), NoMemory>
    requires homes { AreHomes homes.old.items }
    requires port { port < length homes.old.items }
    ensures homes { AreHomes homes.new.items }
    ensures ok { OnOk result (QueuedNext port homes.old.items run.old homes.new.items run.new) }
    ensures refused { OnErr result (KeptNext port homes.old.items run.old homes.new.items run.new) }
    ensures begun { Begin 0 0 homes.old.items homes.new.items }
{
    let Some(ticket) = ticket_at(homes, port) else {
        return Ok(());
    };
    match run.push(ticket) {
        Ok(()) => Ok(()),
        Err((_, no_memory)) => Err(no_memory),
    }
}

// The turn of a ticket. A ticket of no port of this run is dropped.
fn serve_ticket<B: PortBody, G: Gate, R: Wait>(
    rt: &R,
    homes: &mut Vec<Home<B>>,
    run: &mut RunSeat,
    ticket: Ticket,
    gate: &G,
    counts: &mut TurnCounts,
) -> Result<bool, NoMemory>
    requires homes { AreHomes homes.old.items }
    ensures homes { AreHomes homes.new.items }
    ensures tickets { (kept : List Ticket) × KeptBy result kept × Serves (ticket ∷ []) kept homes.old.items run.old homes.new.items run.new }
    ensures counts { KeepsCounts counts.old homes.old.items counts.new homes.new.items }
{
    let port = ticket.port as usize;
    if port >= homes.len() {
        return Ok(true);
    }
    let turn = claim_at(rt, homes, port, ticket, gate, counts);
    follow(homes, run, port, turn)?;
    Ok(true)
}

// A turn of each idle port, for tasks that came while a body was put home. Answers whether one may have more to do.
fn serve_idle<B: PortBody, G: Gate, R: Wait>(
    rt: &R,
    homes: &mut Vec<Home<B>>,
    run: &mut RunSeat,
    gate: &G,
    counts: &mut TurnCounts,
) -> Result<bool, NoMemory>
    requires homes { AreHomes homes.old.items }
    requires few { length homes.old.items ≤ 2 ^ 32 }
    ensures homes { AreHomes homes.new.items }
    ensures tickets { (kept : List Ticket) × KeptBy result kept × Serves [] kept homes.old.items run.old homes.new.items run.new }
    ensures counts { KeepsCounts counts.old homes.old.items counts.new homes.new.items }
{
    let mut more = false;
    'ports: for port in 0..homes.len() {
        let turn = idle_at(rt, homes, port, gate, counts);
        if follow(homes, run, port, turn)? {
            more = true;
        }
    }
    Ok(more)
}

// One ticket, or else each idle port. Answers whether there was something to do.
fn serve<B: PortBody, G: Gate, R: Wait>(
    rt: &R,
    homes: &mut Vec<Home<B>>,
    run: &mut RunSeat,
    gate: &G,
    counts: &mut TurnCounts,
) -> Result<bool, NoMemory>
    requires homes { AreHomes homes.old.items }
    requires few { length homes.old.items ≤ 2 ^ 32 }
    ensures homes { AreHomes homes.new.items }
    ensures tickets { (kept : List Ticket) × KeptBy result kept × Serves [] kept homes.old.items run.old homes.new.items run.new }
    ensures counts { KeepsCounts counts.old homes.old.items counts.new homes.new.items }
{
    match run.next(rt) {
        Some(ticket) => serve_ticket(rt, homes, run, ticket, gate, counts),
        None => serve_idle(rt, homes, run, gate, counts),
    }
}

// Serves until the run is over, or there is no memory.
fn serve_all<B: PortBody, G: Gate, R: Wait>(
    rt: &R,
    homes: &mut Vec<Home<B>>,
    run: &mut RunSeat,
    over: &mut OverSeat,
    gate: &G,
    counts: &mut TurnCounts,
) -> SchedEnd
    requires homes { AreHomes homes.old.items }
    requires few { length homes.old.items ≤ 2 ^ 32 }
    ensures homes { AreHomes homes.new.items }
    ensures tickets { (kept : List Ticket) × KeptAtEnd result kept × Serves [] kept homes.old.items run.old homes.new.items run.new }
    ensures over { Looked over.old over.new }
    ensures done { IsDone result → SawTheEnd over.old over.new }
    ensures counts { KeepsCounts counts.old homes.old.items counts.new homes.new.items }
{
    let idle = Idle::new();
    'rounds: for _ in rt.forever() {
        if is_over(over) {
            return SchedEnd::Done;
        }
        match serve(rt, homes, run, gate, counts) {
            Ok(true) => idle.reset(),
            Ok(false) => run.rest(rt, &idle),
            Err(NoMemory) => return SchedEnd::NoMemory,
        }
    }
    unreachable!()
}

/// Runs turns until the run is over. It answers Done only where its last look found that all counted seats had finished, or a stop, and stops the run itself where a
/// turn or a push found no memory. Every body is home when it returns. It may wait, and sleeps while it finds nothing to do. The other schedulers that sleep are woken where it ends.
pub fn scheduler<B: PortBody, G: Gate, R: Wait>(
    rt: &R,
    seats: &mut SchedSeats<B>,
    gate: &G,
) -> SchedEnd
    requires homes { AreHomes seats.old.homes.items × (length seats.old.homes.items ≤ 2 ^ 32) }
    requires stop { HasNotStopped seats.old.over.known.places }
    ensures homes { AreHomes seats.new.homes.items }
    ensures tickets { (kept : List Ticket) × KeptAtEnd result kept × Serves [] kept seats.old.homes.items seats.old.run seats.new.homes.items seats.new.run }
    ensures done { IsDone result → Looked seats.old.over seats.new.over × SawTheEnd seats.old.over seats.new.over }
    ensures stopped { IsNoMemory result → Stopped seats.old.over seats.new.over }
{
    counted_scheduler(rt, seats, gate).0
}

/// As `scheduler`, and counts the turns that it makes.
pub fn counted_scheduler<B: PortBody, G: Gate, R: Wait>(
    rt: &R,
    seats: &mut SchedSeats<B>,
    gate: &G,
) -> (SchedEnd, TurnCounts)
    requires homes { AreHomes seats.old.homes.items × (length seats.old.homes.items ≤ 2 ^ 32) }
    requires stop { HasNotStopped seats.old.over.known.places }
    ensures homes { AreHomes seats.new.homes.items }
    ensures tickets { (kept : List Ticket) × KeptAtEnd result.0 kept × Serves [] kept seats.old.homes.items seats.old.run seats.new.homes.items seats.new.run }
    ensures done { IsDone result.0 → Looked seats.old.over seats.new.over × SawTheEnd seats.old.over seats.new.over }
    ensures stopped { IsNoMemory result.0 → Stopped seats.old.over seats.new.over }
    ensures counts { AreCounts result.1 seats.old.homes.items seats.new.homes.items }
{
    let SchedSeats { homes, run, over } = seats;
    let mut counts = TurnCounts { queued: 0, idle: 0 };
    let end = serve_all(rt, homes, run, over, gate, &mut counts);
    match end {
        SchedEnd::Done => run.wake_all(),
        SchedEnd::NoMemory => {
            over.stop();
            run.wake_all();
        }
    }
    (end, counts)
}
