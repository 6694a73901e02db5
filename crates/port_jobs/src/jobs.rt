ghost use Rattle.std.specs.Prelude.{◌≡◌, ◌∷◌, [], ◌↔◌, ℕ, true, false, List, OnOk, OnErr};
ghost use Rattle.std.specs.List.{list_all};
ghost use Rattle.async_jobs.specs.Pool.{Submitted as PoolSubmitted};
ghost use Rattle.port_history.specs.Jobs.{Submitted, done_by, is_done, is_submitted};
ghost use Rattle.port_jobs.specs.Jobs.{Agrees, Submits, SubmitsFront, are_next, is_news};

use crate::numbers::are_next;
use crate::{Effect, NoMemory, Pool, Signal, SubmitFault};
use async_jobs::Job;
use std::alloc::Global;
use std::collections::BTreeSet;
use std::marker::Model;
use std::sync::Wait;

/// The jobs of one port, and its pool.
///
/// A job that is told done before it is submitted counts as done too. A call takes time that grows with the logarithm of the
/// count of jobs that were told done; `submit` takes that for each job of the effects.
#[derive(Drop)]
pub struct PortJobs {
    port: u32,
    pool: Pool,
    submitted: u64,
    told: BTreeSet<u64>,
    // How many submitted jobs weren't told done.
    waiting: u64,
}

impl Model for PortJobs {
    ghost use Rattle.std.specs.BTreeSet.{keys};
    ghost use Rattle.port_jobs.specs.Jobs.{JobsView};
    ghost use Rattle.port_jobs.specs.Counted.{IsCounted};

    ghost Value = { JobsView };

    ghost view = { λ p. record { port = p.port; lanes = p.pool; submitted = p.submitted; told = keys p.told; waiting = p.waiting } };

    ghost invariant = { λ p. IsCounted p.submitted (keys p.told) p.waiting };
}

// Puts a job into the lane of its worker. Where no memory is found, nothing was put.
fn put<R: Wait>(pool: &mut Pool, rt: &R, job: Job) -> Result<(), NoMemory>
    ensures ok { OnOk result (PoolSubmitted pool.old job pool.new) }
    ensures err { OnErr result (pool.new ≡ pool.old) }
{
    match pool.submit(rt, job) {
        Ok(()) => Ok(()),
        Err((_, no_memory)) => Err(no_memory),
    }
}

impl PortJobs {
    /// The jobs of the port of this number, before its driver submits any.
    pub fn new(alloc: Global, port: u32, pool: Pool) -> PortJobs
        ensures jobs { result ≡ record { port = port; lanes = pool; submitted = 0; told = []; waiting = 0 } }
        ensures agrees { Agrees result [] [] }
    {
        PortJobs {
            port,
            pool,
            submitted: 0,
            told: BTreeSet::new(alloc),
            waiting: 0,
        }
    }

    /// Whether a job of this number was submitted.
    pub fn is_submitted(&self, number: u64) -> bool
        ensures { (jobs : List Submitted) (done : List ℕ) → Agrees self.now jobs done → result ≡ is_submitted number jobs }
    {
        number < self.submitted
    }

    /// Whether all submitted jobs were told done.
    pub fn are_done(&self) -> bool
        ensures { (jobs : List Submitted) (done : List ℕ) → Agrees self.now jobs done → result ≡ list_all (λ job. is_done job.number done) jobs }
    {
        self.waiting == 0
    }

    /// Takes in a signal that has a row, handled or late: the job that it tells done, if it does.
    #[inline(always)]
    pub fn note_done(&mut self, signal: &Signal) -> Result<(), NoMemory>
        ensures ok { OnOk result ((jobs : List Submitted) (done : List ℕ) → Agrees self.old jobs done → Agrees self.new jobs (done_by signal.now done)) }
        ensures same { self.new ≡ record self.old { told = self.new.told; waiting = self.new.waiting } }
        ensures err { OnErr result (self.new ≡ self.old) }
        ensures memory { OnErr result (is_news self.old.told signal.now ≡ true) }
    {
        match signal {
            Signal::AsyncDone { number, .. } => self.note_number(*number),
            _ => Ok(()),
        }
    }

    /// Submits the jobs of a row's effects, in their order, each to the worker of its key. `NotNext` tells that they aren't
    /// the next ones, and then nothing was submitted; where memory is wanting, some first ones may have been. A count of jobs
    /// that would pass 2^64 - 1 is answered as want of memory. It may spin while another thread is in a call.
    pub fn submit<R: Wait>(&mut self, rt: &R, effects: &[Effect]) -> Result<(), SubmitFault>
        ensures ok { OnOk result (Submits self.old self.new effects.now) }
        ensures err { OnErr result (SubmitsFront self.old self.new effects.now) }
        ensures not_next { (result ≡ Err SubmitFault.NotNext) ↔ (are_next self.old.submitted effects.now ≡ false) }
        ensures nothing { result ≡ Err SubmitFault.NotNext → self.new ≡ self.old }
    {
        if !are_next(self.submitted, effects) {
            return Err(SubmitFault::NotNext);
        }
        match self.submit_next(rt, effects) {
            Ok(()) => Ok(()),
            Err(NoMemory) => Err(SubmitFault::NoMemory),
        }
    }

    /// The pool, for the end of a run.
    pub fn into_pool(self) -> Pool
        ensures { result ≡ self.lanes }
    {
        let PortJobs { pool, .. } = self;
        pool
    }

    fn note_number(&mut self, number: u64) -> Result<(), NoMemory>
        ensures ok { OnOk result ((jobs : List Submitted) (done : List ℕ) → Agrees self.old jobs done → Agrees self.new jobs (number ∷ done)) }
        ensures same { self.new ≡ record self.old { told = self.new.told; waiting = self.new.waiting } }
        ensures err { OnErr result (self.new ≡ self.old) }
        ensures memory { OnErr result (is_done number self.old.told ≡ false) }
    {
        if self.told.insert(number)? && number < self.submitted {
            self.waiting -= 1;
        }
        Ok(())
    }

    fn submit_next<R: Wait>(&mut self, rt: &R, effects: &[Effect]) -> Result<(), NoMemory>
        requires { are_next self.old.submitted effects.now ≡ true }
        ensures ok { OnOk result (Submits self.old self.new effects.now) }
        ensures err { OnErr result (SubmitsFront self.old self.new effects.now) }
    {
        for effect in effects {
            self.submit_one(rt, effect)?;
        }
        Ok(())
    }

    fn submit_one<R: Wait>(&mut self, rt: &R, effect: &Effect) -> Result<(), NoMemory>
        requires { are_next self.old.submitted (effect.now ∷ []) ≡ true }
        ensures ok { OnOk result (Submits self.old self.new (effect.now ∷ [])) }
        ensures err { OnErr result (self.new ≡ self.old) }
    {
        let Effect::Async {
            number,
            key,
            code,
            input,
        } = effect
        else {
            return Ok(());
        };
        let Some(submitted) = self.submitted.checked_add(1) else {
            return Err(NoMemory);
        };
        let job = Job {
            port: self.port,
            number: *number,
            key: *key,
            code: *code,
            input: input.share()?,
        };
        put(&mut self.pool, rt, job)?;
        self.submitted = submitted;
        if !self.told.contains(number) {
            self.waiting += 1;
        }
        Ok(())
    }
}
