//! The end of a program's output, by the options of its port.
use crate::checks::none_is_wrong;
use crate::port::{ProgramStep, first_wrong_served, options};
use outside::MemProgram;
use packet_framing::Mode;
use port_driver::Config;
use std::alloc::Global;

/// A program that gives nothing and ends with the status 3.
fn ended(alloc: Global) -> MemProgram {
    let mut program = MemProgram::new(alloc, 1);
    program.end(3);
    program
}

/// The options of a port that tells the end of its program, its status, or both.
fn telling(alloc: Global, eof: bool, exit_status: bool) -> Option<Config> {
    let mut config = options(alloc, Mode::Stream)?;
    config.eof = eof;
    config.exit_status = exit_status;
    Some(config)
}

/// The number of the first step that goes otherwise in a port of that program with these options, if one does, or of the step behind
/// the last where there is no port.
fn first_wrong_end(
    alloc: Global,
    eof: bool,
    exit_status: bool,
    steps: &[ProgramStep<'_>],
) -> Option<usize> {
    match &telling(alloc, eof, exit_status) {
        Some(config) => first_wrong_served(alloc, ended(alloc), config, steps),
        None => Some(steps.len()),
    }
}

#[test]
fn an_end_without_options_closes_the_port(rt: HostRuntime) {
    let steps = [ProgramStep::Reads(b"end;read off;fail normal;")];
    none_is_wrong(&rt, first_wrong_end(rt.alloc(), false, false, &steps));
}

#[test]
fn an_end_that_is_told_keeps_the_port(rt: HostRuntime) {
    let steps = [ProgramStep::Reads(b"end;eof;read off;")];
    none_is_wrong(&rt, first_wrong_end(rt.alloc(), true, false, &steps));
}

#[test]
fn a_status_that_is_told_closes_the_port(rt: HostRuntime) {
    let steps = [ProgramStep::Reads(b"end;ended 3;status 3;read off;fail normal;")];
    none_is_wrong(&rt, first_wrong_end(rt.alloc(), false, true, &steps));
}

#[test]
fn an_end_and_a_status_that_are_told_keep_the_port(rt: HostRuntime) {
    let steps = [ProgramStep::Reads(b"end;ended 3;eof;status 3;read off;")];
    none_is_wrong(&rt, first_wrong_end(rt.alloc(), true, true, &steps));
}
