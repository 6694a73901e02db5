ghost use Rattle.std.specs.Prelude.{◌≡◌, IfOk};
ghost use Rattle.port_config.specs.Config.{plain, is_config};

use no_memory::NoMemory;
use packet_framing::{Mode, Piece};
use std::alloc::Global;

/// The low limit of a queue where nothing is said, in bytes.
pub const DEFAULT_LOW: u32 = 4_096;

/// The high limit of a queue where nothing is said, in bytes.
pub const DEFAULT_HIGH: u32 = 8_192;

/// The greatest limit of a queue, in bytes.
pub const MAX_LIMIT: u32 = 1_073_741_824;

/// The options of a port. Limits are in bytes: the driver queue of a program sets its port busy at `busy_high` and frees it
/// below `busy_low`, after `high_watermark` and `low_watermark` of open_port's option `busy_limits_port`; those of the port's message
/// queue are of `busy_limits_msgq`.
#[derive(Drop)]
pub struct Config {
    /// The command text of a program.
    pub run: Piece,
    /// How the bytes of a program are framed.
    pub mode: Mode,
    /// Whether the end of the program's output is told.
    pub eof: bool,
    /// Whether the program's status is told once its output has ended.
    pub exit_status: bool,
    pub busy_low: u32,
    pub busy_high: u32,
    /// Whether the port's message queue has limits.
    pub msgq_on: bool,
    pub msgq_low: u32,
    pub msgq_high: u32,
}

impl Config {
    /// The options of a port of which nothing is said: no command text, a stream, both pairs of limits as by default.
    pub fn plain(alloc: Global) -> Result<Config, NoMemory>
        ensures { IfOk result (λ config. config ≡ plain) }
    {
        Ok(Config {
            run: Piece::of_slice(alloc, b"")?,
            mode: Mode::Stream,
            eof: false,
            exit_status: false,
            busy_low: DEFAULT_LOW,
            busy_high: DEFAULT_HIGH,
            msgq_on: true,
            msgq_low: DEFAULT_LOW,
            msgq_high: DEFAULT_HIGH,
        })
    }

    /// Whether the mode can be served and each pair of limits lies in its range: 1 to 1,073,741,824, the low one not above the
    /// high one.
    pub fn is_within_ranges(&self) -> bool
        ensures { result ≡ is_config self.now }
    {
        let is_pair = |low: u32, high: u32| 1 <= low && low <= high && high <= MAX_LIMIT;
        self.mode.is_served()
            && is_pair(self.busy_low, self.busy_high)
            && is_pair(self.msgq_low, self.msgq_high)
    }
}
