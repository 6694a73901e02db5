//! The steps so far, with what later steps ask of them.

ghost use Rattle.std.specs.Prelude.{◌≡◌, ℕ, ◌+◌, ◌*◌, ◌<◌, ◌++◌, ◌∷◌, [], length, All, IfOk, OnOk};
ghost use Rattle.script_plan.specs.Monitors.{has_died, monitor_count, oldest_monitor};
ghost use Rattle.script_plan.specs.Plan.{IsWithin};
ghost use Rattle.gateway_script.specs.Steps.{IsSteps, IsKept, IsNone};
ghost use Rattle.script_plan.specs.declared.step.Act.TheVariants as act;

use no_memory::NoMemory;
use script_plan::{Act, Step};
use std::alloc::Global;

/// The most processes, and the most ports.
pub(crate) const MAX_NAMED: usize = 32;

/// The most steps.
pub(crate) const MAX_STEPS: usize = 131_072;

/// The steps so far, with what later steps ask of them.
#[derive(Drop)]
pub(crate) struct Steps {
    pub list: Vec<Step>,
    /// Whether each process has died.
    died: [bool; MAX_NAMED],
    /// How many monitors each process has begun.
    monitors: [u64; MAX_NAMED],
    /// The monitors of each process and port: those of the first process at all ports, then those of the next.
    pairs: Vec<Pair>,
}

/// The monitors of a process at a port.
#[derive(Drop)]
pub(crate) struct Pair {
    /// The numbers of those that were begun, the oldest first.
    begun: Vec<u64>,
    /// How many of them have ended.
    ended: usize,
}

/// Where the pair of a process and a port stands.
fn pair_place(process: u32, port: u32) -> usize
    requires process { process < 32 }
    requires port { port < 32 }
    ensures { result ≡ 32 * process + port }
{
    MAX_NAMED * process as usize + port as usize
}

impl Steps {
    /// No steps, with room for so many.
    pub(crate) fn with_room(alloc: Global, room: usize) -> Result<Steps, NoMemory>
        ensures steps { IfOk result (λ s. IsSteps s) }
        ensures none { IfOk result (λ s. s.list.items ≡ []) }
    {
        Ok(Steps {
            list: Vec::with_capacity(alloc, room)?,
            died: [false; MAX_NAMED],
            monitors: [0; MAX_NAMED],
            pairs: no_pairs(alloc)?,
        })
    }

    /// Whether this process has died.
    pub(crate) fn has_died(&self, process: u32) -> bool
        requires steps { IsSteps self.now }
        requires process { process < 32 }
        ensures { result ≡ has_died process self.now.list.items }
    {
        self.died[process as usize]
    }

    /// How many monitors this process has begun.
    pub(crate) fn monitor_count(&self, process: u32) -> u64
        requires steps { IsSteps self.now }
        requires process { process < 32 }
        ensures { result ≡ monitor_count process self.now.list.items }
    {
        self.monitors[process as usize]
    }

    /// The oldest monitor of this process at this port that hasn't ended.
    pub(crate) fn oldest_monitor(&self, process: u32, port: u32) -> Option<u64>
        requires steps { IsSteps self.now }
        requires process { process < 32 }
        requires port { port < 32 }
        ensures { result ≡ oldest_monitor process port self.now.list.items }
    {
        let pair = &self.pairs[pair_place(process, port)];
        pair.begun.get(pair.ended).copied()
    }

    /// Puts a step at the end.
    pub(crate) fn push(&mut self, step: Step) -> Result<(), NoMemory>
        requires steps { IsSteps self.old }
        requires few { length self.old.list.items < 131072 }
        requires process { step.process < 32 }
        requires within { IsWithin 32 32 step.act }
        ensures steps { OnOk result (IsSteps self.new) }
        ensures list { OnOk result (self.new.list.items ≡ self.old.list.items ++ step ∷ []) }
    {
        self.note(&step)?;
        self.list.push(step)?;
        Ok(())
    }

    /// Notes what the next step changes.
    fn note(&mut self, step: &Step) -> Result<(), NoMemory>
        requires steps { IsSteps self.old }
        requires few { length self.old.list.items < 131072 }
        requires process { step.now.process < 32 }
        requires within { IsWithin 32 32 step.now.act }
        ensures kept { OnOk result (IsKept self.new.died self.new.monitors self.new.pairs.items (self.old.list.items ++ step.now ∷ [])) }
        ensures list { OnOk result (self.new.list.items ≡ self.old.list.items) }
    {
        match &step.act {
            Act::Monitor { port, number } => self.note_monitor(step.process, *port, *number),
            Act::Demonitor { port, .. } => {
                self.note_end(step.process, *port);
                Ok(())
            }
            Act::Die(_) => {
                self.died[step.process as usize] = true;
                Ok(())
            }
            _ => Ok(()),
        }
    }

    /// Notes that a process begins a monitor of this number.
    fn note_monitor(&mut self, process: u32, port: u32, number: u64) -> Result<(), NoMemory>
        requires steps { IsSteps self.old }
        requires few { length self.old.list.items < 131072 }
        requires process { process < 32 }
        requires port { port < 32 }
        ensures kept { OnOk result ((line : ℕ) → IsKept self.new.died self.new.monitors self.new.pairs.items (self.old.list.items ++ record { line = line; process = process; act = act.Monitor port number } ∷ [])) }
        ensures list { OnOk result (self.new.list.items ≡ self.old.list.items) }
    {
        let pair = &mut self.pairs[pair_place(process, port)];
        pair.begun.push(number)?;
        self.monitors[process as usize] += 1;
        Ok(())
    }

    /// Notes that a process ends its oldest monitor.
    fn note_end(&mut self, process: u32, port: u32)
        requires steps { IsSteps self.old }
        requires few { length self.old.list.items < 131072 }
        requires process { process < 32 }
        requires port { port < 32 }
        ensures kept { (line number : ℕ) → IsKept self.new.died self.new.monitors self.new.pairs.items (self.old.list.items ++ record { line = line; process = process; act = act.Demonitor port number } ∷ []) }
        ensures list { self.new.list.items ≡ self.old.list.items }
    {
        let pair = &mut self.pairs[pair_place(process, port)];
        pair.ended += 1;
    }
}

/// A pair without monitors for each process and port.
fn no_pairs(alloc: Global) -> Result<Vec<Pair>, NoMemory>
    ensures none { IfOk result (λ pairs. All IsNone pairs.items) }
    ensures len { IfOk result (λ pairs. length pairs.items ≡ 1024) }
{
    let mut pairs = Vec::new(alloc);
    for _ in 0..MAX_NAMED * MAX_NAMED {
        pairs.push(Pair {
            begun: Vec::new(alloc),
            ended: 0,
        })?;
    }
    Ok(pairs)
}
