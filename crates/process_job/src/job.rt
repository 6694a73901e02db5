ghost use Rattle.std.specs.Prelude.{◌≡◌, ℕ, [], length, Some, None, IsSome, IfSome, List};
ghost use Rattle.port_words.specs.declared.home.homes.Ticket.{Ticket};
ghost use Rattle.port_words.specs.over.Over.{HasNotStopped};
ghost use Rattle.port_sched.specs.Waking.{Woke};
ghost use Rattle.process_end.specs.Ports.{AreParts};
ghost use Rattle.process_end.specs.Views.{proc_view};
ghost use Rattle.process_job.specs.Jobs.{AreAmong, AreWithin, CanMakeSteps, CanRun, CanRunSeats, EndsAs, EndsHalted, IsWorkOf, RanWork};

use crate::calling::make_room;
use crate::ending::end_process;
use crate::halt::Halt;
use crate::log::MailLog;
use crate::running::{StepsToMake, make_steps};
use crate::seats::ProcessSeats;
use port_model::{Mail, Piece};
use port_sched::{PortBody, ThreadJob};
use port_words::over::OverSeat;
use process_end::{Proc, ProcEnd, ProcParts};
use script_plan::Step;
use std::alloc::Global;
use std::collections::VecDeque;
use std::sync::Wait;

/// A process that has made no step yet, its steps in order, and the contents of the files that its `file` steps send, one for each such step, in their order.
#[derive(Drop)]
pub struct ProcessWork {
    pub alloc: Global,
    pub proc: Proc,
    pub steps: VecDeque<Step>,
    pub files: VecDeque<Piece>,
}

/// A process that has ended, and the mail that it took or added itself, in the order in which it came. What its mailbox still has comes behind.
#[derive(Drop)]
pub struct EndedProcess {
    pub proc: ProcEnd,
    pub mails: Vec<Mail>,
}

/// What became of a process.
#[derive(Drop)]
pub enum ProcessEnd {
    /// It made its steps and told each port of its end.
    Ended(EndedProcess),
    /// It was dropped on the way, since the run was stopped.
    Stopped,
    /// It was dropped on the way, since it found no memory. It stopped the run.
    NoMemory,
}

/// The job of a process: its seats, what it has to do, and once it ran what became of it.
pub struct ProcessJob<B: PortBody> {
    pub seats: ProcessSeats<B>,
    pub work: Option<ProcessWork>,
    pub end: Option<ProcessEnd>,
}

// Its parts go by one call, which is proved once and not in each function that may let one go.
impl<B: PortBody> Drop for ProcessJob<B> {
    fn drop(self) {
        let Self {
            seats: _,
            work: _,
            end: _,
        } = self;
    }
}

/// What is left of the job of a process that has run.
#[derive(Drop)]
pub struct JobEnd<B: PortBody> {
    pub seats: ProcessSeats<B>,
    pub end: ProcessEnd,
}

/// Runs a process to its end.
fn run_process<B: PortBody, R: Wait>(
    rt: &R,
    seats: &mut ProcessSeats<B>,
    work: ProcessWork,
) -> Result<EndedProcess, Halt>
    requires seats { CanRunSeats seats.old }
    requires work { CanMakeSteps (length seats.old.ports.homes.items) work }
    ensures { RanWork work result seats.old seats.new }
{
    let ProcessWork {
        alloc,
        mut proc,
        steps,
        files,
    } = work;
    let mut log = MailLog::new(alloc, seats.ports.homes.len())?;
    make_room(&mut proc, &mut log, steps.len());
    let own_steps = StepsToMake { steps, files };
    let (proc, reason) = make_steps(rt, alloc, seats, &mut log, proc, own_steps)?;
    let proc = end_process(rt, seats, proc, reason)?;
    Ok(EndedProcess {
        proc,
        mails: log.into_mails(),
    })
}

/// What becomes of a process that halts. Where it found no memory the run is stopped.
fn halted(over: &mut OverSeat, halt: Halt) -> ProcessEnd
    requires { HasNotStopped over.old.known.places }
    ensures { EndsHalted halt over.old over.new result }
{
    match halt {
        Halt::Stopped => ProcessEnd::Stopped,
        Halt::NoMemory => {
            over.stop();
            ProcessEnd::NoMemory
        }
    }
}

/// Runs a process, to its end or until it halts. Where it finds no memory it stops the run.
fn finish<B: PortBody, R: Wait>(
    rt: &R,
    seats: &mut ProcessSeats<B>,
    work: ProcessWork,
) -> ProcessEnd
    requires seats { CanRunSeats seats.old }
    requires work { CanMakeSteps (length seats.old.ports.homes.items) work }
    ensures { (kept : List Ticket) × Woke kept seats.old.ports seats.new.ports × EndsAs work kept seats.old.over seats.new.over (Some result) }
{
    match run_process(rt, seats, work) {
        Ok(ended) => ProcessEnd::Ended(ended),
        Err(halt) => halted(&mut seats.over, halt),
    }
}

impl<B: PortBody> ProcessJob<B> {
    /// The job of a process that has made no call, with these steps and the contents of its files. It takes no memory.
    pub fn new(
        alloc: Global,
        seats: ProcessSeats<B>,
        parts: ProcParts,
        steps: VecDeque<Step>,
        files: VecDeque<Piece>,
    ) -> ProcessJob<B>
        requires seats { CanRunSeats seats }
        requires parts { AreParts parts.number parts.mailbox parts.lanes.items parts.seats.items parts.soft.items }
        requires many { length parts.lanes.items ≡ length seats.ports.homes.items }
        requires within { (processes : ℕ) × AreAmong processes parts.lanes.items × AreWithin processes (length parts.lanes.items) steps.items }
        ensures can { CanRun result }
        ensures seats { result.seats ≡ seats }
        ensures work { IfSome result.work (IsWorkOf (proc_view parts.number parts.mailbox parts.lanes.items parts.seats.items parts.soft.items [] 0 0) steps.items files.items) }
        ensures end { result.end ≡ None }
    {
        let work = ProcessWork {
            alloc,
            proc: Proc::new(alloc, parts),
            steps,
            files,
        };
        ProcessJob {
            seats,
            work: Some(work),
            end: None,
        }
    }

    /// The seats of a job that has run, and what became of its process.
    pub fn into_end(self) -> JobEnd<B>
        requires { IsSome self.end }
        ensures seats { result.seats ≡ self.seats }
        ensures end { self.end ≡ Some result.end }
    {
        let Self {
            seats,
            work: _,
            end,
        } = self;
        let Some(end) = end else { unreachable!() };
        JobEnd { seats, end }
    }
}

impl<B: PortBody> ThreadJob for ProcessJob<B> {
    ghost use Rattle.process_job.specs.Jobs.{CanRun, HasRun};

    ghost can_run = { CanRun };

    ghost went = { HasRun };

    fn run<R: Wait>(&mut self, rt: &R) {
        let Some(work) = self.work.take() else {
            unreachable!();
        };
        let end = finish(rt, &mut self.seats, work);
        self.end = Some(end);
    }
}
