ghost use Rattle.std.specs.Prelude.{◌≡◌, ◌↔◌, IsTrue};

/// The most bytes of a frame or of a line's piece that an unframer serves.
pub(crate) const MAX_LEN: u32 = 262_143;

/// How the bytes of a port are framed, after the options of `open_port`.
#[derive(Clone, Copy, Debug, PartialEq, Eq)]
pub enum Mode {
    /// One byte of length before each message, as with `{packet, 1}`.
    Packet1,
    /// Two bytes of length, the most significant first, as with `{packet, 2}`.
    Packet2,
    /// Four bytes of length, the most significant first, as with `{packet, 4}`.
    Packet4,
    /// Lines in pieces of at most so many bytes, 1 to 262,143, as with `{line, L}`.
    Line(u32),
    /// Bytes without borders, as with `stream`.
    Stream,
}

impl Mode {
    ghost use Rattle.packet_framing.specs.Frames.{header_len};
    ghost use Rattle.packet_framing.specs.Messages.{IsServed};

    /// Whether an unframer can be made: each mode but a line limit of 0 or of more than 262,143.
    pub fn is_served(self) -> bool
        ensures { IsTrue result ↔ IsServed self }
    {
        match self {
            Mode::Line(limit) => 0 < limit && limit <= MAX_LEN,
            _ => true,
        }
    }

    /// How many bytes of length stand before a message.
    pub(crate) fn header_len(self) -> usize
        ensures { result ≡ header_len self }
    {
        match self {
            Mode::Packet1 => 1,
            Mode::Packet2 => 2,
            Mode::Packet4 => 4,
            Mode::Line(_) | Mode::Stream => 0,
        }
    }
}
