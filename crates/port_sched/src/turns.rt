// One turn of one port.
ghost use Rattle.std.specs.Prelude.{◌≡◌, ◌<◌, [], ◌∷◌, Some, None, IfSome, IfNone};
ghost use Rattle.port_sched.specs.Counts.{BeginsAt};
ghost use Rattle.port_sched.specs.Homes.{HomeStep, turns_of, FoundNotIdle};

use crate::body::{PortBody, Turn};
use crate::lodger::Lodger;
use outside::Gate;
use port_words::home::{HomeSeat, Running, Ticket};
use std::sync::Wait;

// The steps of one turn.
const STEPS: u32 = 64;

/// A seat of a port's home, in which a body lies.
pub type Home<B> = HomeSeat<Lodger<B>>;

/// Begins the turn of a ticket, makes it, and puts the body home. None where the ticket was found stale.
pub(crate) fn claim_turn<B: PortBody, G: Gate, R: Wait>(
    rt: &R,
    home: &mut Home<B>,
    ticket: Ticket,
    gate: &G,
) -> Option<Turn>
    requires port { ticket.port ≡ home.old.port }
    requires rests { home.old.known.running ≡ None }
    ensures step { HomeStep (ticket.turn ∷ []) [] home.old home.new }
    ensures begun { IfSome result (λ _. BeginsAt 1 0 home.old home.new) }
    ensures stale { IfNone result (BeginsAt 0 0 home.old home.new) }
{
    match home.claim(ticket) {
        Ok(mut running) => {
            gate.enter(ticket.port);
            let turn = running.body().turn(rt, STEPS);
            gate.leave(ticket.port);
            home.put_home(running);
            Some(turn)
        }
        Err(_) => None,
    }
}

/// Makes a turn of an idle port. None where it isn't idle.
pub(crate) fn idle_turn<B: PortBody, G: Gate, R: Wait>(
    rt: &R,
    home: &mut Home<B>,
    port: u32,
    gate: &G,
) -> Option<Turn>
    requires { home.old.known.running ≡ None }
    ensures step { HomeStep [] [] home.old home.new }
    ensures begun { IfSome result (λ _. BeginsAt 0 1 home.old home.new) }
    ensures busy { IfNone result (BeginsAt 0 0 home.old home.new) }
{
    match home.claim_idle() {
        Ok(mut running) => {
            gate.enter(port);
            let turn = running.body().turn(rt, STEPS);
            gate.leave(port);
            home.put_home(running);
            Some(turn)
        }
        Err(_) => None,
    }
}

/// The ticket of the next turn of an idle port. None where it isn't idle.
pub(crate) fn next_ticket<B: PortBody>(home: &mut Home<B>) -> Option<Ticket>
    requires { home.old.known.running ≡ None }
    ensures port { IfSome result (λ t. t.port ≡ home.old.port) }
    ensures step { HomeStep [] (turns_of result) home.old home.new }
    ensures busy { IfNone result (FoundNotIdle home.new) }
    ensures begun { BeginsAt 0 0 home.old home.new }
{
    match home.schedule() {
        Ok(ticket) => Some(ticket),
        Err(_) => None,
    }
}
