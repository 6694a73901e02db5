//! The works that are timed.
use crate::framing::feed_time;
use crate::queues::{deq_time, pushq_time};
use crate::scripts::{commands_time, script_time};
use crate::terms::{decode_time, encode_time};
use crate::vectors::skip_time;
use anyhow::Result;
use packet_framing::Mode;
use std::rt::Clock;
use std::time::Duration;

/// How often a work is made for one time.
const ROUNDS: u32 = 5;

/// A work that is timed.
#[derive(Clone, Copy, Debug)]
pub(crate) enum Work {
    /// Terms are written and read, a list of so many tuples.
    Encode,
    Decode,
    /// A vector of so many segments is skipped byte by byte.
    Skip,
    /// A driver queue of so many segments is emptied byte by byte, or gets as many more in front.
    Deq,
    Pushq,
    /// So many bytes are unframed, in large chunks or byte by byte.
    Packets,
    PacketsBytewise,
    Lines,
    LinesBytewise,
    Stream,
    StreamBytewise,
    /// A script of about so many bytes is read: one of all kinds of steps, or one of commands of 33 bytes.
    Script,
    Commands,
}

pub(crate) const WORKS: [Work; 13] = [
    Work::Encode,
    Work::Decode,
    Work::Skip,
    Work::Deq,
    Work::Pushq,
    Work::Packets,
    Work::PacketsBytewise,
    Work::Lines,
    Work::LinesBytewise,
    Work::Stream,
    Work::StreamBytewise,
    Work::Script,
    Work::Commands,
];

impl Work {
    pub(crate) fn name(self) -> &'static str {
        match self {
            Work::Encode => "terms_encode",
            Work::Decode => "terms_decode",
            Work::Skip => "vector_skip",
            Work::Deq => "queue_deq",
            Work::Pushq => "queue_pushq",
            Work::Packets => "unframe_packets",
            Work::PacketsBytewise => "unframe_packets_bytewise",
            Work::Lines => "unframe_lines",
            Work::LinesBytewise => "unframe_lines_bytewise",
            Work::Stream => "unframe_stream",
            Work::StreamBytewise => "unframe_stream_bytewise",
            Work::Script => "script_read",
            Work::Commands => "commands_read",
        }
    }

    /// How many parts it has where nothing is said: tuples, segments or bytes.
    pub(crate) fn parts(self) -> u32 {
        match self {
            Work::Encode | Work::Decode => 50_000,
            Work::Skip | Work::Deq | Work::Pushq => 100_000,
            Work::Packets | Work::Lines | Work::Stream => 4_194_304,
            Work::PacketsBytewise | Work::LinesBytewise | Work::StreamBytewise => 1_048_576,
            Work::Script => 250_000,
            Work::Commands => 800_000,
        }
    }
}

/// The shortest time of some rounds of a work with so many parts.
pub(crate) fn time_of<R: Clock + AllocGlobal>(rt: &R, work: Work, parts: u32) -> Result<Duration> {
    let mut best = Duration::MAX;
    for _ in 0..ROUNDS {
        best = best.min(round_time(rt, work, parts)?);
    }
    Ok(best)
}

/// The time of one round.
pub(crate) fn round_time<R: Clock + AllocGlobal>(
    rt: &R,
    work: Work,
    parts: u32,
) -> Result<Duration> {
    match work {
        Work::Encode => encode_time(rt, parts),
        Work::Decode => decode_time(rt, parts),
        Work::Skip => skip_time(rt, parts),
        Work::Deq => deq_time(rt, parts),
        Work::Pushq => pushq_time(rt, parts),
        Work::Packets => feed_time(rt, Mode::Packet4, parts, false),
        Work::PacketsBytewise => feed_time(rt, Mode::Packet4, parts, true),
        Work::Lines => feed_time(rt, Mode::Line(262_143), parts, false),
        Work::LinesBytewise => feed_time(rt, Mode::Line(262_143), parts, true),
        Work::Stream => feed_time(rt, Mode::Stream, parts, false),
        Work::StreamBytewise => feed_time(rt, Mode::Stream, parts, true),
        Work::Script => script_time(rt, parts),
        Work::Commands => commands_time(rt, parts),
    }
}
