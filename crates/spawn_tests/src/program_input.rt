//! What a program is given.
use crate::checks::none_is_wrong;
use crate::port::{ProgramStep, first_wrong_framed, first_wrong_served, options};
use outside::MemProgram;
use packet_framing::Mode;
use port_driver::Config;
use std::alloc::Global;

/// The number of the first step that goes otherwise in a port with this framing, if one does, or of the step behind the last where there
/// is no port. Its program takes two bytes of an offer.
fn first_wrong_given(alloc: Global, mode: Mode, steps: &[ProgramStep<'_>]) -> Option<usize> {
    first_wrong_framed(alloc, MemProgram::new(alloc, 2), mode, steps)
}

#[test]
fn a_program_takes_of_one_offer_what_it_can(rt: HostRuntime) {
    let steps = [
        ProgramStep::Takes(b"abc", b"write on;"),
        ProgramStep::Writes(b"took 2;"),
        ProgramStep::Writes(b"took 1;write off;"),
    ];
    none_is_wrong(&rt, first_wrong_given(rt.alloc(), Mode::Stream, &steps));
}

#[test]
fn a_second_command_selects_nothing_more(rt: HostRuntime) {
    let steps = [
        ProgramStep::Takes(b"ab", b"write on;"),
        ProgramStep::Takes(b"c", b""),
        ProgramStep::HasQueued(b"\x00\x02ab\x00\x01c"),
    ];
    none_is_wrong(&rt, first_wrong_given(rt.alloc(), Mode::Packet2, &steps));
}

/// The place of a command of so many bytes, if it is recorded otherwise where its length has one byte.
fn first_wrong_long(alloc: Global, count: usize, wanted: &[u8]) -> Option<usize> {
    match &vec![in alloc; b'a'; count] {
        Ok(bytes) => first_wrong_given(
            alloc,
            Mode::Packet1,
            &[ProgramStep::Takes(bytes.as_slice(), wanted)],
        ),
        Err(_) => Some(0),
    }
}

#[test]
fn data_of_255_bytes_has_one_byte_of_length(rt: HostRuntime) {
    none_is_wrong(&rt, first_wrong_long(rt.alloc(), 255, b"write on;"));
}

#[test]
fn data_of_256_bytes_is_too_long_for_one_byte_of_length(rt: HostRuntime) {
    none_is_wrong(&rt, first_wrong_long(rt.alloc(), 256, b"fail einval;"));
}

/// The options of a port with a high limit of 3 bytes and a low one of 2.
fn limited(alloc: Global) -> Option<Config> {
    let mut config = options(alloc, Mode::Stream)?;
    config.busy_low = 2;
    config.busy_high = 3;
    Some(config)
}

/// The same as `first_wrong_given` of a port with those limits, whose program takes one byte of an offer.
fn first_wrong_limited(alloc: Global, steps: &[ProgramStep<'_>]) -> Option<usize> {
    match &limited(alloc) {
        Some(config) => first_wrong_served(alloc, MemProgram::new(alloc, 1), config, steps),
        None => Some(steps.len()),
    }
}

#[test]
fn a_port_is_busy_from_its_high_limit_and_free_below_its_low_one(rt: HostRuntime) {
    let steps = [
        ProgramStep::Takes(b"abc", b"write on;busy;"),
        ProgramStep::Writes(b"took 1;"),
        ProgramStep::Writes(b"took 1;free;"),
    ];
    none_is_wrong(&rt, first_wrong_limited(rt.alloc(), &steps));
}
