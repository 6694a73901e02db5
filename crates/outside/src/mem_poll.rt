ghost use Rattle.std.specs.Prelude.{◌≡◌, ◌==◌, ◌^◌, ◌<◌, ◌≤◌, ◌↔◌, [], ◌∷◌, ◌++◌, IsTrue, OnOk, OnErr, IfOk, IsErrOf, MatchResult};
ghost use Rattle.std.specs.List.{IsDistinct};
ghost use Rattle.outside.specs.Causes.{WaitOk, WaitErr};
ghost use Rattle.outside.specs.Plan.{fails, after_call, faults_after, no_calls, with_fault};
ghost use Rattle.outside.specs.Sublist.{IsSublist};
ghost use Rattle.outside.specs.Rounds.{found, ready_of, rounds_left};

use crate::call_plan::CallPlan;
use crate::{FaultCount, NoMemory, PollFault, PollSet};
use std::alloc::{AllocError, Global};
use std::collections::VecDeque;
use std::marker::Model;
use std::sync::Arc;
use wake_ups::Waiter;

/// The events that one wait finds ready.
#[derive(Debug, Drop)]
struct Round {
    events: Vec<u32>,
}

impl Model for Round {
    ghost use Rattle.std.specs.Prelude.{List, ℕ};

    ghost Value = { List ℕ };

    ghost view = { λ r. r.events.items };
}

impl Round {
    fn new(alloc: Global, events: &[u32]) -> Result<Self, NoMemory>
        ensures { IfOk result (λ round. round ≡ events.now) }
    {
        Ok(Round {
            events: Vec::from_slice(alloc, events)?,
        })
    }

    fn ready(&self, alloc: Global, armed: &[u32]) -> Result<Vec<u32>, AllocError>
        ensures { IfOk result (λ events. events.items ≡ ready_of self.now armed.now) }
    {
        armed
            .iter()
            .copied()
            .filter(|event| self.events.contains(event))
            .collect(alloc)
    }
}

/// Readiness in memory, by rounds of events.
///
/// A wait uses up the next round where one of its events is armed, and answers those. It answers
/// nothing where none is, and all armed events once the rounds are used up.
#[derive(Debug, Drop)]
pub struct MemPoll {
    rounds: VecDeque<Round>,
    answered: Vec<u32>,
    waits: CallPlan,
    faults: FaultCount,
}

impl Model for MemPoll {
    ghost use Rattle.outside.specs.Rounds.{Rounds};

    ghost Value = { Rounds };

    ghost view = { λ p. record { rounds = p.rounds.items; answered = p.answered.items; waits = p.waits; faults = p.faults } };
}

impl MemPoll {
    /// No rounds, so that a wait answers all armed events. No wait fails.
    pub fn new(alloc: Global) -> Self
        ensures { result ≡ record {
          rounds = [];
          answered = [];
          waits = no_calls;
          faults = 0;
        } }
    {
        MemPoll {
            rounds: VecDeque::new(alloc),
            answered: Vec::new(alloc),
            waits: CallPlan::new(alloc),
            faults: FaultCount::new(),
        }
    }

    /// Adds a round behind those that are there.
    pub fn add_round(&mut self, events: &[u32]) -> Result<(), NoMemory>
        ensures ok { OnOk result (self.new ≡ record self.old { rounds = self.old.rounds ++ events.now ∷ [] }) }
        ensures err { OnErr result (self.new ≡ self.old) }
    {
        let round = Round::new(*self.answered.allocator(), events)?;
        self.rounds.push_back(round).map_err(|_| NoMemory)
    }

    /// Makes the wait of this number fail. Waits are counted from 0.
    pub fn fail_wait(&mut self, number: u64) -> Result<(), NoMemory>
        ensures ok { OnOk result (self.new ≡ record self.old { waits = with_fault self.old.waits number }) }
        ensures err { OnErr result (self.new ≡ self.old) }
    {
        self.waits.fail(number)
    }

    /// The events that waits answered so far, in order.
    pub fn answered(&self) -> &[u32]
        ensures { result.now ≡ self.now.answered }
    {
        self.answered.as_slice()
    }

    fn ready(&self, alloc: Global, armed: &[u32]) -> Result<Vec<u32>, AllocError>
        requires { IsDistinct (λ a b. a == b) armed.now }
        ensures value { IfOk result (λ events. events.items ≡ found self.now.rounds armed.now) }
        ensures part { IfOk result (λ events. IsSublist events.items armed.now) }
        ensures once { IfOk result (λ events. IsDistinct (λ a b. a == b) events.items) }
    {
        match self.rounds.front() {
            None => Vec::from_slice(alloc, armed),
            Some(round) => round.ready(alloc, armed),
        }
    }
}

impl PollSet for MemPoll {
    ghost faults = { λ p. p.faults };

    ghost answered = { λ p. p.answered };

    fn wake_at(&self, _waiter: &Arc<Waiter, Global>) {}

    fn wait(&mut self, alloc: Global, armed: &[u32]) -> Result<Vec<u32>, PollFault>
        requires { IsDistinct (λ a b. a == b) armed.now }
        ensures wait { MatchResult result
            (λ events. WaitOk self.old.faults self.new.faults self.old.answered self.new.answered armed.now events.items)
            (λ fault. WaitErr self.old.faults self.new.faults self.old.answered self.new.answered fault) }
        ensures rises { self.old.faults ≤ self.new.faults }

        // A wait fails exactly where it is to fail, and answers by the rounds that are left.
        ensures planned { IsErrOf result PollFault.Failed ↔ IsTrue (fails self.old.waits) }
        ensures after { (self.new.waits ≡ after_call self.old.waits) × (self.new.faults ≡ faults_after self.old.waits self.old.faults) }
        ensures events { IfOk result (λ events. events.items ≡ found self.old.rounds armed.now) }
        ensures rounds { OnOk result (self.new.rounds ≡ rounds_left self.old.rounds armed.now) }
        ensures err { OnErr result (self.new.rounds ≡ self.old.rounds) }
    {
        if self.waits.next_fails(&mut self.faults) {
            return Err(PollFault::Failed);
        }
        let events = self.ready(alloc, armed)?;
        self.answered.extend_from_slice(events.as_slice())?;
        if !events.is_empty() {
            let _used = self.rounds.pop_front();
        }
        Ok(events)
    }
}
