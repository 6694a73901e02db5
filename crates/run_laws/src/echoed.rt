//! What the owner of a port finds that sends each command back: the data of its commands in the order of the script, whatever the schedule.
ghost use Rattle.run_laws.specs.Echoed.{AllIsEchoed, CommandsAreEchoed, NoneIsRefused};

use port_driver::Driver;

/// Of a port whose driver sends each command back (`echo`, `valve` and `valve_soft`), and to which its owner alone sends, commands without options and behind them nothing but closes, until the processes
/// end, each run of the script leaves for the owner the data of its commands that were accepted or suspended, in their order. No command is dropped, refused as closed or late. Where none is refused at all,
/// it is all that the steps send; and none is where the owner makes at most 131,072 calls and its commands have at most 262,143 bytes.
pub fn commands_are_echoed<D: Driver>()
    ensures echoed { CommandsAreEchoed D.kind D.stage D.faults D.own D.program }
    ensures all { AllIsEchoed D.kind D.stage D.faults D.own D.program }
    ensures none_refused { NoneIsRefused D.kind D.stage D.faults D.own D.program }
{}
