//! What a driver of a program starts with.
ghost use Rattle.std.specs.Prelude.{◌≡◌, [], false, IfOk};
ghost use Rattle.driver_model.specs.Drivers.{is_blank};

use crate::kept::Kept;
use packet_framing::Unframer;
use port_config::Config;
use port_model::NoMemory;
use std::alloc::Global;

/// Whether a command text has no word: it is spaces alone.
pub(crate) fn is_blank(text: &[u8]) -> bool
    ensures { result ≡ is_blank text.now }
{
    text.iter().all(|byte| b' ' == *byte)
}

/// The same options.
fn copy_of(config: &Config) -> Result<Config, NoMemory>
    ensures { IfOk result (λ copy. copy ≡ config.now) }
{
    Ok(Config {
        run: config.run.share()?,
        mode: config.mode,
        eof: config.eof,
        exit_status: config.exit_status,
        busy_low: config.busy_low,
        busy_high: config.busy_high,
        msgq_on: config.msgq_on,
        msgq_low: config.msgq_low,
        msgq_high: config.msgq_high,
    })
}

/// What is kept of a program that nothing was given and of which nothing was taken. Options whose mode can't be served are refused as for
/// want of memory.
pub(crate) fn begin(alloc: Global, config: &Config) -> Result<Kept, NoMemory>
    ensures { IfOk result (λ kept. kept ≡ record { config = config.now; read = 0; write = 0; rest = []; refused = false; taken = 0; busy = false; failed = false }) }
{
    if !config.mode.is_served() {
        return Err(NoMemory);
    }
    let config = copy_of(config)?;
    let unframer = Some(Unframer::new(alloc, config.mode));
    Ok(Kept {
        config,
        read: 0,
        write: 0,
        unframer,
        taken: 0,
        busy: false,
        failed: false,
    })
}
