//! What programs took and gave, and what is saved of what they gave, by what a run of a script promises.
ghost use Rattle.run_laws.specs.Saved.{OutputIsSavedIn};
ghost use Rattle.run_laws.specs.Served.{ProgramsServedIn};

use port_driver::Driver;

/// In every run of a script, the program of each port took a front of the frames of the commands that the port handled, in their order, and all of them where the port wasn't killed and no call of the program
/// failed; it was given just this front, and gave just the bytes that the port took; and the port sent the messages of these bytes, but for a chunk that failed it.
pub fn programs_are_served_in_every_run<D: Driver>()
    ensures { ProgramsServedIn D.kind D.stage D.faults D.own D.program }
{}

/// In every run of a script, what the opener of a program's port has to save of the port is a function of the bytes that the port took from its program and of whether their end was told, as long as no step
/// hands the port to another process: the messages of these bytes, joined, with byte 10 behind each that ends a line. A chunk that failed the port is left out.
pub fn output_is_saved_in_every_run<D: Driver>()
    ensures { OutputIsSavedIn D.kind D.stage D.faults D.own D.program }
{}
