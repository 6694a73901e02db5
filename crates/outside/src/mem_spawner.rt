ghost use Rattle.std.specs.Prelude.{◌≡◌, ◌≤◌, ◌<◌, ◌+◌, ◌^◌, ◌⊎◌, [], ◌∷◌, ◌++◌, Some, IsTrue, OnOk, OnErr, MatchResult};
ghost use Rattle.outside.specs.Plan.{fails, after_call, no_calls, with_fault};
ghost use Rattle.outside.specs.Programs.{shown};
ghost use Rattle.outside.specs.Spawning.{Launches, IsLeft};
ghost use Rattle.outside.specs.Starting.{Started, StartErr};

use crate::call_plan::CallPlan;
use crate::{FaultCount, MemChild, MemProgram, NoMemory, SpawnFault, Spawner};
use std::alloc::Global;
use std::collections::VecDeque;
use std::marker::Model;

/// What starts programs of memory, in the order in which they were added, with starts that can be made to fail.
#[derive(Debug, Drop)]
pub struct MemSpawner {
    next_event: u32,
    programs: VecDeque<MemProgram>,
    starts: CallPlan,
    faults: FaultCount,
}

impl Model for MemSpawner {
    ghost use Rattle.outside.specs.Spawning.{Spawning};

    ghost Value = { Spawning };

    ghost view = { λ s. record { next_event = s.next_event; programs = s.programs.items; starts = s.starts; faults = s.faults } };
}

impl MemSpawner {
    /// No programs. The first child has the events `first_event` and `first_event + 1`, and each further child the two behind those of
    /// the child before it.
    pub fn new(alloc: Global, first_event: u32) -> Self
        ensures { result ≡ record {
          next_event = first_event;
          programs = [];
          starts = no_calls;
          faults = 0;
        } }
    {
        MemSpawner {
            next_event: first_event,
            programs: VecDeque::new(alloc),
            starts: CallPlan::new(alloc),
            faults: FaultCount::new(),
        }
    }

    /// Adds a program behind those that are there.
    pub fn add(&mut self, program: MemProgram) -> Result<(), NoMemory>
        ensures ok { OnOk result (self.new ≡ record self.old { programs = self.old.programs ++ program ∷ [] }) }
        ensures err { OnErr result (self.new ≡ self.old) }
    {
        self.programs.push_back(program).map_err(|_| NoMemory)
    }

    /// Makes the start of this number fail. Starts are counted from 0.
    pub fn fail_start(&mut self, number: u64) -> Result<(), NoMemory>
        ensures ok { OnOk result (self.new ≡ record self.old { starts = with_fault self.old.starts number }) }
        ensures err { OnErr result (self.new ≡ self.old) }
    {
        self.starts.fail(number)
    }
}

impl Spawner for MemSpawner {
    type Program = MemChild;

    ghost faults = { λ s. s.faults };

    /// A start that is to fail uses up no program. It also fails where no program is left, or no two events below the greatest `u32`.
    fn start(&mut self, alloc: Global, command: &[u8]) -> Result<MemChild, SpawnFault>
        ensures start { MatchResult result
            (λ child. Started self.old.faults self.new.faults command.now child.faults (shown child))
            (λ fault. StartErr self.old.faults self.new.faults fault) }
        ensures rises { self.old.faults ≤ self.new.faults }

        // It starts the next program, and fails where it is to fail or nothing is left.
        ensures launch { MatchResult result (λ child. Launches self.old self.new child) (λ fault. (fault ≡ SpawnFault.Failed) × ((IsTrue (fails self.old.starts)) ⊎ (IsLeft self.old → ⊥))) }
        ensures starts { self.new.starts ≡ after_call self.old.starts }
    {
        if self.starts.next_fails(&mut self.faults) {
            return Err(SpawnFault::Failed);
        }
        let event = self.next_event;
        if event >= u32::MAX - 1 {
            self.faults.rise();
            return Err(SpawnFault::Failed);
        }
        let Some(program) = self.programs.pop_front() else {
            self.faults.rise();
            return Err(SpawnFault::Failed);
        };
        self.next_event = event + 2;
        Ok(MemChild::new(alloc, program, event, command))
    }
}
