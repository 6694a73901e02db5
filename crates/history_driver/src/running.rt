//! A driver that was started for a history.
ghost use Rattle.std.specs.Prelude.{◌≡◌, ◌≤◌, length, IfOk, OnOk};
ghost use Rattle.recorded_calls.specs.Told.{DidAsTold};
ghost use Rattle.history_driver.specs.Running.{kind_in, own_in};
ghost use Rattle.history_driver.specs.Calling.{HasRoom};

use crate::sample::SampleDriver;
use port_driver::DriverCtx;
use port_model::NoMemory;
use recorded_calls::RecordedCall;
use spawn_driver::RecordedProgram;
use std::alloc::Global;

/// A driver that was started: a sample driver, or that of a program of which only the answers are known.
#[derive(Drop)]
pub(crate) enum RunningDriver {
    Sample(SampleDriver),
    Program(RecordedProgram),
}

impl RunningDriver {
    /// Makes a call. Answers whether the outside's answers are what the call asks for; where they aren't, the driver is of no use any
    /// more.
    pub(crate) fn call(
        &mut self,
        alloc: Global,
        ctx: &mut DriverCtx,
        call: &RecordedCall<'_>,
    ) -> Result<bool, NoMemory>
        requires outside { length ctx.old.outside ≤ 524288 }
        requires effects { length ctx.old.effects ≤ 524288 }
        ensures kind { kind_in self.new ≡ kind_in self.old }
        ensures room { OnOk result (HasRoom ctx.old ctx.new) }
        ensures told { IfOk result (DidAsTold (kind_in self.old) call.now (own_in self.old) (own_in self.new) ctx.old ctx.new) }
    {
        match self {
            RunningDriver::Sample(driver) => driver.call(alloc, ctx, call),
            RunningDriver::Program(program) => program.call(alloc, ctx, call),
        }
    }
}
