//! The jobs of a driver.
ghost use Rattle.std.specs.Prelude.{◌≡◌, ◌∷◌, ◌++◌, [], ℕ, List, ◌+◌, true, false, length, IfOk, OnOk};
ghost use Rattle.std.specs.List.{list_all};
ghost use Rattle.driver_model.specs.Same.{same_bytes};
ghost use Rattle.async_jobs.specs.Work.{work_of};
ghost use Rattle.port_history.specs.Jobs.{Submitted, is_done, is_submitted, each_of, is_next_of_key, submitted_by};
ghost use Rattle.port_history.specs.Laws.{is_work};
ghost use Rattle.history_tables.specs.JobsKept.{Keeps, are_next, no_later};

use crate::{Effect, NoMemory};
use async_jobs::work;
use port_model::Piece;
use std::alloc::Global;
use std::collections::{BTreeMap, BTreeSet};

/// A job that was submitted: which are done in order, what it does, and on which bytes.
#[derive(Drop)]
pub struct KeptJob {
    pub key: u32,
    pub code: u8,
    pub input: Piece,
}

/// The jobs of a port, which are numbered from 0, and those that were told done.
#[derive(Drop)]
pub struct JobTable {
    jobs: Vec<KeptJob>,
    told: BTreeSet<u64>,
    // Of each key the last submitted job that was told done.
    latest: BTreeMap<u32, u64>,
}

/// Whether these bytes are the work of this code and input.
fn is_work_of(alloc: Global, code: u8, input: &[u8], output: &[u8]) -> Result<bool, NoMemory>
    ensures { IfOk result (λ is. is ≡ same_bytes output.now (work_of code input.now)) }
{
    if code == 0 || code > 3 {
        return Ok(output.is_empty());
    }
    let wanted = work(alloc, code, input)?;
    Ok(output == wanted.as_slice())
}

impl JobTable {
    /// No job was submitted, and none was told done.
    pub fn new(alloc: Global) -> JobTable
        ensures { Keeps result [] [] }
    {
        JobTable {
            jobs: Vec::new(alloc),
            told: BTreeSet::new(alloc),
            latest: BTreeMap::new(alloc),
        }
    }

    /// Whether a job of this number was submitted.
    pub fn is_submitted(&self, number: u64) -> bool
        ensures { (jobs : List Submitted) (done : List ℕ) → Keeps self.now jobs done → result ≡ is_submitted number jobs }
    {
        number < self.jobs.len() as u64
    }

    /// Whether a job of this number was told done.
    pub fn is_done(&self, number: u64) -> bool
        ensures { (jobs : List Submitted) (done : List ℕ) → Keeps self.now jobs done → result ≡ is_done number done }
    {
        self.told.contains(&number)
    }

    /// Whether these bytes are the work of the job of this number, if it was submitted.
    pub fn is_work(&self, alloc: Global, number: u64, output: &Piece) -> Result<bool, NoMemory>
        ensures { IfOk result (λ is. (jobs : List Submitted) (done : List ℕ) → Keeps self.now jobs done → is ≡ each_of number (is_work output.now) jobs) }
    {
        let place = number as usize;
        if place >= self.jobs.len() {
            return Ok(true);
        }
        let job = &self.jobs[place];
        is_work_of(alloc, job.code, job.input.as_slice(), output.as_slice())
    }

    /// Whether no later job of the key of this one was told done, if it was submitted.
    pub fn is_next_of_key(&self, number: u64) -> bool
        ensures { (jobs : List Submitted) (done : List ℕ) → Keeps self.now jobs done → result ≡ each_of number (is_next_of_key jobs done) jobs }
    {
        let place = number as usize;
        if place >= self.jobs.len() {
            return true;
        }
        self.is_latest(self.jobs[place].key, number)
    }

    /// Whether no later job of this key was told done.
    fn is_latest(&self, key: u32, number: u64) -> bool
        ensures { (jobs : List Submitted) (done : List ℕ) → Keeps self.now jobs done
            → result ≡ list_all (λ (other : Submitted). no_later key number done other) jobs }
    {
        match self.latest.get(&key) {
            Some(latest) => *latest <= number,
            None => true,
        }
    }

    /// Whether each submitted job was told done.
    pub fn are_done(&self) -> bool
        ensures { (jobs : List Submitted) (done : List ℕ) → Keeps self.now jobs done → result ≡ list_all (λ job. is_done job.number done) jobs }
    {
        for place in 0..self.jobs.len() {
            let number = place as u64;
            if !self.told.contains(&number) {
                return false;
            }
        }
        true
    }

    /// Takes in that a job is told done, that wasn't before and of whose key no later one was.
    pub fn note_done(&mut self, number: u64) -> Result<(), NoMemory>
        ensures { OnOk result ((jobs : List Submitted) (done : List ℕ) → Keeps self.old jobs done → each_of number (is_next_of_key jobs done) jobs ≡ true
            → Keeps self.new jobs (number ∷ done)) }
    {
        self.told.insert(number)?;
        let place = number as usize;
        if place >= self.jobs.len() {
            return Ok(());
        }
        self.latest.insert(self.jobs[place].key, number)?;
        Ok(())
    }

    /// Takes in a job that is submitted.
    fn submit_one(&mut self, key: u32, code: u8, input: &Piece) -> Result<(), NoMemory>
        ensures { OnOk result ((jobs : List Submitted) (done : List ℕ) → Keeps self.old jobs done
            → Keeps self.new (jobs ++ record { number = length jobs; key = key; code = code; input = input.now } ∷ []) done) }
    {
        let number = self.jobs.len() as u64;
        let input = input.share()?;
        self.jobs.push(KeptJob { key, code, input })?;
        if !self.told.contains(&number) {
            return Ok(());
        }
        self.latest.insert(key, number)?;
        Ok(())
    }

    fn submit_effect(&mut self, effect: &Effect) -> Result<(), NoMemory>
        ensures { OnOk result ((jobs : List Submitted) (done : List ℕ) → Keeps self.old jobs done → are_next (length jobs) (effect.now ∷ []) ≡ true
            → Keeps self.new (jobs ++ submitted_by (effect.now ∷ [])) done) }
    {
        if let Effect::Async {
            key,
            code,
            input,
            ..
        } = effect
        {
            return self.submit_one(*key, *code, input);
        }
        Ok(())
    }

    /// Takes in the jobs that these effects submit, which are the next ones.
    pub fn submit(&mut self, effects: &[Effect]) -> Result<(), NoMemory>
        ensures { OnOk result ((jobs : List Submitted) (done : List ℕ) → Keeps self.old jobs done → are_next (length jobs) effects.now ≡ true
            → Keeps self.new (jobs ++ submitted_by effects.now) done) }
    {
        for effect in effects {
            self.submit_effect(effect)?;
        }
        Ok(())
    }
}
