//! What a program gives.
use crate::checks::none_is_wrong;
use crate::port::{ProgramStep, first_wrong_framed};
use outside::MemProgram;
use packet_framing::Mode;
use std::alloc::Global;

/// A program that gives these chunks. An empty one gives nothing.
fn giving(alloc: Global, first: &[u8], second: &[u8]) -> Option<MemProgram> {
    let mut program = MemProgram::new(alloc, 2);
    let is_given = program.give(first).is_ok() && program.give(second).is_ok();
    is_given.then_some(program)
}

/// A program that gives this chunk and ends.
fn ending(alloc: Global, chunk: &[u8]) -> Option<MemProgram> {
    let mut program = giving(alloc, chunk, b"")?;
    program.end(0);
    Some(program)
}

/// The number of the first step that goes otherwise in a port of this program with this framing, if one does, or of the step behind the
/// last where there is no port.
fn first_wrong_got(
    alloc: Global,
    mode: Mode,
    program: Option<MemProgram>,
    steps: &[ProgramStep<'_>],
) -> Option<usize> {
    match program {
        Some(program) => first_wrong_framed(alloc, program, mode, steps),
        None => Some(steps.len()),
    }
}

/// The same of a program that gives these chunks.
fn first_wrong_given(
    alloc: Global,
    mode: Mode,
    chunks: (&[u8], &[u8]),
    steps: &[ProgramStep<'_>],
) -> Option<usize> {
    let (first, second) = chunks;
    first_wrong_got(alloc, mode, giving(alloc, first, second), steps)
}

/// The same of a program that gives this chunk and ends.
fn first_wrong_ended(
    alloc: Global,
    mode: Mode,
    chunk: &[u8],
    steps: &[ProgramStep<'_>],
) -> Option<usize> {
    first_wrong_got(alloc, mode, ending(alloc, chunk), steps)
}

#[test]
fn packets_are_found_over_chunks(rt: HostRuntime) {
    let steps = [
        ProgramStep::Reads(b"got \x00\x03ab;"),
        ProgramStep::Reads(b"got c\x00\x00;plain abc;plain ;"),
    ];
    let chunks: (&[u8], &[u8]) = (b"\x00\x03ab", b"c\x00\x00");
    none_is_wrong(
        &rt,
        first_wrong_given(rt.alloc(), Mode::Packet2, chunks, &steps),
    );
}

#[test]
fn a_cut_packet_is_dropped_at_the_end(rt: HostRuntime) {
    let steps = [
        ProgramStep::Reads(b"got \x00;"),
        ProgramStep::Reads(b"end;read off;fail normal;"),
    ];
    none_is_wrong(
        &rt,
        first_wrong_ended(rt.alloc(), Mode::Packet2, b"\x00", &steps),
    );
}

#[test]
fn lines_are_found_over_chunks(rt: HostRuntime) {
    let steps = [
        ProgramStep::Reads(b"got ab;"),
        ProgramStep::Reads(b"got c\nabcd\n\nx;eol abc;noeol abc;eol d;eol ;"),
    ];
    let chunks: (&[u8], &[u8]) = (b"ab", b"c\nabcd\n\nx");
    none_is_wrong(
        &rt,
        first_wrong_given(rt.alloc(), Mode::Line(3), chunks, &steps),
    );
}

#[test]
fn the_rest_of_a_line_is_told_at_the_end(rt: HostRuntime) {
    let steps = [
        ProgramStep::Reads(b"got xy;"),
        ProgramStep::Reads(b"end;noeol xy;read off;fail normal;"),
    ];
    none_is_wrong(
        &rt,
        first_wrong_ended(rt.alloc(), Mode::Line(3), b"xy", &steps),
    );
}

#[test]
fn each_chunk_of_a_stream_is_a_message(rt: HostRuntime) {
    let steps = [
        ProgramStep::Reads(b"got a;plain a;"),
        ProgramStep::Reads(b"got bc;plain bc;"),
    ];
    let chunks: (&[u8], &[u8]) = (b"a", b"bc");
    none_is_wrong(
        &rt,
        first_wrong_given(rt.alloc(), Mode::Stream, chunks, &steps),
    );
}

#[test]
fn a_program_with_nothing_to_give_is_asked_again(rt: HostRuntime) {
    let steps = [
        ProgramStep::Reads(b"got def;plain def;"),
        ProgramStep::Reads(b"again;"),
    ];
    let chunks: (&[u8], &[u8]) = (b"def", b"");
    none_is_wrong(
        &rt,
        first_wrong_given(rt.alloc(), Mode::Stream, chunks, &steps),
    );
}

#[test]
fn a_header_that_tells_too_many_bytes_fails_the_port(rt: HostRuntime) {
    let steps = [
        ProgramStep::Reads(b"got \x7f\xff\xff\xff;fail emsgsize;"),
        ProgramStep::Reads(b"again;"),
    ];
    let chunks: (&[u8], &[u8]) = (b"\x7f\xff\xff\xff", b"");
    none_is_wrong(
        &rt,
        first_wrong_given(rt.alloc(), Mode::Packet4, chunks, &steps),
    );
}
