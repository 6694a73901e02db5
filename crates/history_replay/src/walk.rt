//! The walk through the history of one port.
ghost use Rattle.std.specs.Prelude.{◌≡◌, length, None, IfOk, OnOk};
ghost use Rattle.driver_model.specs.Drivers.{job_count};
ghost use Rattle.history_driver.specs.Kinds.{kind_of};
ghost use Rattle.history_state.specs.Kept.{IsStateOf};
ghost use Rattle.port_history.specs.Lawful.{end_broken, law_broken};
ghost use Rattle.port_history.specs.Opening.{Opening};
ghost use Rattle.port_history.specs.State.{State, after, state_at_start};
ghost use Rattle.history_replay.specs.Walked.{IsJudgement, IsOpenedAs, StandsAt, Takes, TellsEffects, Walks, WentOn};

use crate::BrokenLaw;
use crate::judging::{EFFECTS, broken_before_effects, broken_behind_effects, broken_by_end};
use history_driver::{DriverKind, HandledTask, HistoryDriver, HistoryState, RowEnd};
use journal_text::PortReport;
use port_model::{NoMemory, Row};
use std::alloc::Global;

/// What is told of a row.
#[derive(Drop)]
pub(crate) enum Judgement {
    /// It keeps the laws, and left its port so.
    Keeps(RowEnd),
    /// The least law that it breaks.
    Breaks(u32),
}

/// What is kept of a port after the rows so far.
#[derive(Drop)]
pub(crate) struct Walk {
    state: HistoryState,
    driver: HistoryDriver,
}

impl Walk {
    /// Starts a driver of this kind for a port that was opened among so many processes.
    pub(crate) fn start(
        alloc: Global,
        kind: DriverKind,
        processes: u32,
        report: &PortReport,
    ) -> Result<Walk, NoMemory>
        ensures { IfOk result (λ walk. (port : Opening) → IsOpenedAs port processes (kind_of kind) report.now → StandsAt walk port (state_at_start port)) }
    {
        let (driver, effects) = HistoryDriver::start(
            alloc,
            kind,
            &report.config,
            report.owner,
            report.events,
        )?;
        let state = HistoryState::new(alloc, processes, report.owner, effects.as_slice())?;
        Ok(Walk { state, driver })
    }

    /// Judges the next row by the law of effects, for which the driver handles its task. A row of no handled task closes nothing.
    fn judge_effects(&mut self, alloc: Global, row: &Row) -> Result<Option<RowEnd>, NoMemory>
        ensures tells { IfOk result (λ closing. (port : Opening) (s : State) → StandsAt self.old port s → TellsEffects port s row.now closing self.new.driver) }
        ensures stays { self.new.state ≡ self.old.state }
    {
        match row {
            Row::Handled {
                from,
                task,
                outside,
                effects,
                ..
            } => {
                let handled = HandledTask {
                    from: *from,
                    task,
                    outside: outside.as_slice(),
                    effects: effects.as_slice(),
                };
                self.driver.handle(alloc, &self.state, handled)
            }
            _ => Ok(Some(RowEnd {
                reason: None,
                stops: false,
            })),
        }
    }

    /// Judges the next row, whose task the driver handles for it.
    fn judge(&mut self, alloc: Global, row: &Row) -> Result<Judgement, NoMemory>
        ensures tells { IfOk result (λ told. (port : Opening) (s : State) → StandsAt self.old port s → IsJudgement port s row.now told self.new.driver) }
        ensures stays { self.new.state ≡ self.old.state }
    {
        if let Some(law) = broken_before_effects(&self.state, row) {
            return Ok(Judgement::Breaks(law));
        }
        let Some(closing) = self.judge_effects(alloc, row)? else {
            return Ok(Judgement::Breaks(EFFECTS));
        };
        if let Some(law) = broken_behind_effects(alloc, &self.state, row)? {
            return Ok(Judgement::Breaks(law));
        }
        Ok(Judgement::Keeps(closing))
    }

    /// Takes a row in that keeps the laws, and left its port so.
    fn take_in(&mut self, row: &Row, closing: RowEnd) -> Result<(), NoMemory>
        ensures { OnOk result ((port : Opening) (s : State) → law_broken port s row.now ≡ None → IsStateOf self.old.state port s
            → length s.jobs ≡ job_count port.kind port.config s.calls → WentOn port s row.now closing self.old.driver → StandsAt self.new port (after port s row.now)) }
    {
        match row {
            Row::Handled {
                from,
                task,
                effects,
                ..
            } => self
                .state
                .note_handled(*from, task.signal(), effects.as_slice(), closing)?,
            Row::Late { from, task, .. } => self.state.note_late(*from, task.signal())?,
            Row::Listed { from, seq } => self.state.note_listed(*from, *seq)?,
            Row::Resumed { from, seq, word } => self.state.note_resumed(*from, *seq, *word),
            Row::Mark(kind) => self.state.note_mark(*kind),
        }
        Ok(())
    }

    /// Takes the next row in. Answers the least law that it breaks, where it breaks one.
    fn take(&mut self, alloc: Global, row: &Row) -> Result<Option<u32>, NoMemory>
        ensures { IfOk result (λ law. (port : Opening) (s : State) → StandsAt self.old port s → Takes port s row.now law self.new) }
    {
        match self.judge(alloc, row)? {
            Judgement::Breaks(law) => Ok(Some(law)),
            Judgement::Keeps(closing) => {
                self.take_in(row, closing)?;
                Ok(None)
            }
        }
    }

    /// Takes all rows in, from the first on, up to one that breaks a law.
    pub(crate) fn take_all(
        &mut self,
        alloc: Global,
        rows: &[Row],
    ) -> Result<Option<BrokenLaw>, NoMemory>
        ensures { IfOk result (λ told. (port : Opening) → StandsAt self.old port (state_at_start port) → Walks port rows.now told self.new) }
    {
        for (at, row) in rows.iter().enumerate() {
            if let Some(law) = self.take(alloc, row)? {
                let row = at as u64;
                return Ok(Some(BrokenLaw { row, law }));
            }
        }
        Ok(None)
    }

    /// The least law that the end of the history breaks here.
    pub(crate) fn broken_by_end(&self) -> Option<u32>
        ensures { (port : Opening) (s : State) → StandsAt self.now port s → result ≡ end_broken s }
    {
        broken_by_end(&self.state)
    }
}
