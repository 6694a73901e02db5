use crate::checks::{is_right, none_is_wrong};
use io_vector::{IoVec, NoMemory, Piece};
use packet_framing::{
    Flag, FrameFault, Message, Mode, UnframeFault, Unframer, frame, unframe, unframe_so_far,
};
use std::alloc::Global;
use std::test::Fail;

/// Whether a message has the flag and the bytes that are expected.
fn is(message: &Message, expected: Option<&(Flag, &[u8])>) -> bool {
    match expected {
        Some((flag, bytes)) => message.flag == *flag && message.bytes.as_slice() == *bytes,
        None => false,
    }
}

/// Whether the messages have these flags and bytes.
fn are(messages: &[Message], expected: &[(Flag, &[u8])]) -> bool {
    for (at, message) in messages.iter().enumerate() {
        if !is(message, expected.get(at)) {
            return false;
        }
    }
    messages.len() == expected.len()
}

/// The bytes of all messages, if none is empty.
fn joined(alloc: Global, messages: &[Message]) -> Option<Vec<u8>> {
    let mut bytes = Vec::new(alloc);
    for message in messages {
        if message.bytes.is_empty() {
            return None;
        }
        bytes.extend_from_slice(message.bytes.as_slice()).ok()?;
    }
    Some(bytes)
}

/// What a chunk of these bytes makes whole.
fn fed(alloc: Global, unframer: &mut Unframer, chunk: &[u8]) -> Result<Vec<Message>, UnframeFault> {
    unframer.feed(&Piece::of_slice(alloc, chunk)?)
}

/// Adds what a chunk of these bytes makes whole.
fn add_fed(
    alloc: Global,
    unframer: &mut Unframer,
    messages: &mut Vec<Message>,
    chunk: &[u8],
) -> Option<()> {
    messages.append(&mut fed(alloc, unframer, chunk).ok()?).ok()
}

/// Adds what the end makes whole.
fn add_last(unframer: &mut Unframer, messages: &mut Vec<Message>) -> Option<()> {
    messages.append(&mut unframer.end().ok()?).ok()
}

/// The messages of a text that is cut before each place whose bit is set, and then ends, in a mode that is served.
fn told(alloc: Global, mode: Mode, text: &[u8], cuts: u32) -> Option<Vec<Message>> {
    if !mode.is_served() {
        return None;
    }
    let mut unframer = Unframer::new(alloc, mode);
    let mut messages = Vec::new(alloc);
    let mut from = 0;
    let mut bits = cuts;
    for at in 0..text.len() {
        if bits % 2 == 1 {
            add_fed(alloc, &mut unframer, &mut messages, &text[from..at])?;
            from = at;
        }
        bits /= 2;
    }
    add_fed(alloc, &mut unframer, &mut messages, &text[from..])?;
    add_last(&mut unframer, &mut messages)?;
    Some(messages)
}

/// Whether a cutting of a text tells these messages.
fn tells(alloc: Global, mode: Mode, text: &[u8], cuts: u32, expected: &[(Flag, &[u8])]) -> bool {
    matches!(&told(alloc, mode, text, cuts), Some(told) if are(told.as_slice(), expected))
}

/// A text of twelve bytes, and its messages in a mode.
#[derive(Clone, Copy)]
struct CutText {
    mode: Mode,
    text: &'static [u8],
    messages: &'static [(Flag, &'static [u8])],
}

/// Whether each cutting of a text tells its messages.
fn is_told_by_all(alloc: Global, case: CutText) -> bool {
    for cuts in 0..4096u32 {
        if !tells(alloc, case.mode, case.text, cuts, case.messages) {
            return false;
        }
    }
    true
}

/// The place of the first text that a cutting tells otherwise, if there is one.
fn first_told_otherwise(alloc: Global, cases: &[CutText]) -> Option<usize> {
    for (at, case) in cases.iter().enumerate() {
        if !is_told_by_all(alloc, *case) {
            return Some(at);
        }
    }
    None
}

/// Whether a cutting of a stream tells all its bytes, and no message of none.
fn streams(alloc: Global, text: &[u8], cuts: u32) -> bool {
    let Some(messages) = told(alloc, Mode::Stream, text, cuts) else {
        return false;
    };
    matches!(joined(alloc, messages.as_slice()), Some(bytes) if bytes.as_slice() == text)
}

/// Whether each cutting of a stream of twelve bytes tells its bytes.
fn is_streamed_by_all(alloc: Global, text: &[u8]) -> bool {
    for cuts in 0..4096u32 {
        if !streams(alloc, text, cuts) {
            return false;
        }
    }
    true
}

const CUT_TEXTS: [CutText; 4] = [
    CutText {
        mode: Mode::Packet1,
        text: b"\x03abc\x00\x01d\x02ef\x05g",
        messages: &[
            (Flag::Plain, b"abc"),
            (Flag::Plain, b""),
            (Flag::Plain, b"d"),
            (Flag::Plain, b"ef"),
        ],
    },
    CutText {
        mode: Mode::Packet2,
        text: b"\x00\x03abc\x00\x00\x00\x01d\x00\x05",
        messages: &[
            (Flag::Plain, b"abc"),
            (Flag::Plain, b""),
            (Flag::Plain, b"d"),
        ],
    },
    CutText {
        mode: Mode::Packet4,
        text: b"\x00\x00\x00\x03abc\x00\x00\x00\x00\x00",
        messages: &[(Flag::Plain, b"abc"), (Flag::Plain, b"")],
    },
    CutText {
        mode: Mode::Line(3),
        text: b"abc\nabcd\n\nxy",
        messages: &[
            (Flag::Eol, b"abc"),
            (Flag::Noeol, b"abc"),
            (Flag::Eol, b"d"),
            (Flag::Eol, b""),
            (Flag::Noeol, b"xy"),
        ],
    },
];

#[test]
fn every_cutting_tells_the_same(rt: HostRuntime) {
    let alloc = rt.alloc();
    none_is_wrong(&rt, first_told_otherwise(alloc, &CUT_TEXTS));
    is_right(&rt, is_streamed_by_all(alloc, b"abcdefghijkl"));
}

/// A piece of each chunk's bytes.
fn pieces(alloc: Global, chunks: &[&[u8]]) -> Result<Vec<Piece>, NoMemory> {
    let mut pieces = Vec::new(alloc);
    for chunk in chunks {
        pieces.push(Piece::of_slice(alloc, chunk)?)?;
    }
    Ok(pieces)
}

/// Whether the run of these chunks tells these messages, in a mode that is served.
fn runs(alloc: Global, mode: Mode, chunks: &[&[u8]], expected: &[(Flag, &[u8])]) -> bool {
    if !mode.is_served() {
        return false;
    }
    let Ok(chunks) = pieces(alloc, chunks) else {
        return false;
    };
    matches!(&unframe(alloc, mode, &chunks), Ok(told) if are(told.as_slice(), expected))
}

#[test]
fn packets_that_chunks_cut_come_whole(rt: HostRuntime) {
    let chunks: [&[u8]; 3] = [b"\x00\x03ab", b"c\x00\x00", b"\x00"];
    let packets: [(Flag, &[u8]); 2] = [(Flag::Plain, b"abc"), (Flag::Plain, b"")];
    is_right(&rt, runs(rt.alloc(), Mode::Packet2, &chunks, &packets));
}

// README.md and docs/FRAMING.md show these lines.
#[test]
fn a_run_goes_on(rt: HostRuntime) -> Result<(), Fail> {
    let alloc = rt.alloc();
    let chunks = [
        Piece::of_slice(alloc, b"ab")?,
        Piece::of_slice(alloc, b"\nc")?,
    ];
    let (mut unframer, lines) = unframe_so_far(alloc, Mode::Line(3), &chunks)?;
    assert!(rt; are(lines.as_slice(), &[(Flag::Eol, b"ab")]));
    let more = unframer.feed(&Piece::of_slice(alloc, b"d\n")?)?;
    assert!(rt; are(more.as_slice(), &[(Flag::Eol, b"cd")]));
    Ok(())
}

#[test]
fn a_line_of_its_limit_is_one_message(rt: HostRuntime) {
    let expected: [(Flag, &[u8]); 3] = [
        (Flag::Eol, b"abc"),
        (Flag::Noeol, b"abc"),
        (Flag::Eol, b"def"),
    ];
    is_right(
        &rt,
        tells(rt.alloc(), Mode::Line(3), b"abc\nabcdef\n", 0, &expected),
    );
}

/// What two feeds and the end answer after a header of four bytes.
fn answers(alloc: Global, header: &[u8]) -> [Option<UnframeFault>; 3] {
    let mut unframer = Unframer::new(alloc, Mode::Packet4);
    [
        fed(alloc, &mut unframer, header).err(),
        fed(alloc, &mut unframer, b"a").err(),
        unframer.end().err(),
    ]
}

/// The place of the first header that is answered otherwise from then on, if there is one.
fn first_answered_otherwise(
    alloc: Global,
    table: &[(&[u8], Option<UnframeFault>)],
) -> Option<usize> {
    for (at, line) in table.iter().enumerate() {
        let (header, fault) = *line;
        if answers(alloc, header) != [fault, fault, fault] {
            return Some(at);
        }
    }
    None
}

/// Headers of four bytes, and how each is refused.
const HEADERS: [(&[u8], Option<UnframeFault>); 4] = [
    (
        b"\x7f\xff\xff\xff",
        Some(UnframeFault::Oversize { len: 0x7fff_ffff }),
    ),
    (
        b"\xff\xff\xff\xff",
        Some(UnframeFault::Oversize { len: 0xffff_ffff }),
    ),
    (
        b"\x00\x04\x00\x00",
        Some(UnframeFault::Oversize { len: 262_144 }),
    ),
    (b"\x00\x03\xff\xff", None),
];

#[test]
fn a_frame_that_is_too_long_is_refused_from_then_on(rt: HostRuntime) {
    none_is_wrong(&rt, first_answered_otherwise(rt.alloc(), &HEADERS));
}

/// The frame of these bytes.
fn sent(alloc: Global, mode: Mode, bytes: &[u8]) -> Result<Vec<u8>, FrameFault> {
    let Ok(piece) = Piece::of_slice(alloc, bytes) else {
        return Err(FrameFault::NoMemory);
    };
    match frame(alloc, mode, &IoVec::of_piece(alloc, piece))?.to_vec() {
        Ok(frame) => Ok(frame),
        Err(_) => Err(FrameFault::NoMemory),
    }
}

/// Whether these bytes have this frame.
fn sends(alloc: Global, mode: Mode, bytes: &[u8], wanted: &[u8]) -> bool {
    matches!(sent(alloc, mode, bytes), Ok(frame) if frame.as_slice() == wanted)
}

/// Whether a frame of one byte of length has so many bytes, and begins with the largest byte.
fn sends_longest(alloc: Global, bytes: &[u8], wanted: usize) -> bool {
    match &sent(alloc, Mode::Packet1, bytes) {
        Ok(frame) => frame.len() == wanted && frame.as_slice().first().copied() == Some(255),
        Err(_) => false,
    }
}

/// Why these bytes have no frame of one byte of length, if they have none.
fn frame_fault(alloc: Global, bytes: &[u8]) -> Option<FrameFault> {
    sent(alloc, Mode::Packet1, bytes).err()
}

#[test]
fn a_frame_has_its_length_first(rt: HostRuntime) {
    let alloc = rt.alloc();
    let bytes = [0x61u8; 256];
    is_right(&rt, sends(alloc, Mode::Packet2, b"abc", b"\x00\x03abc"));
    is_right(
        &rt,
        sends(alloc, Mode::Packet4, b"abc", b"\x00\x00\x00\x03abc"),
    );
    is_right(&rt, sends(alloc, Mode::Line(3), b"abc", b"abc"));
    is_right(&rt, sends_longest(alloc, &bytes[..255], 256));
    is_right(
        &rt,
        frame_fault(alloc, &bytes) == Some(FrameFault::TooLong { len: 256 }),
    );
}
