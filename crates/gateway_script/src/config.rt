//! What the options of a port say together.

ghost use Rattle.std.specs.Prelude.{◌≡◌, true, Ok, All, IfOk, IfErr};
ghost use Rattle.port_config.specs.Config.{is_config};
ghost use Rattle.gateway_script.specs.Ranges.{InOption};
ghost use Rattle.std.specs.List.{list_any, list_all};
ghost use Rattle.gateway_script.specs.Options.{is_for_every_driver, suits as suits_driver, is_same as is_same_option, is_repeated, set as set_option, config_of};
ghost use Rattle.gateway_script.specs.LineFault.{Tells};

use crate::line_fault::LineFault;
use crate::options::{PortOption, PortOptions};
use no_memory::NoMemory;
use script_plan::{Config, Reason};
use std::alloc::Global;

impl PortOption {
    /// Whether a port of every driver can have this option.
    fn is_for_every_driver(&self) -> bool
        ensures { result ≡ is_for_every_driver self.now }
    {
        matches!(self, PortOption::Msgq(_) | PortOption::MsgqOff)
    }

    /// Whether a port with this driver can have this option.
    fn suits(&self, driver: &Reason) -> bool
        ensures { result ≡ suits_driver driver.now self.now }
    {
        self.is_for_every_driver() || driver.as_bytes() == b"spawn".as_slice()
    }

    /// Whether the two say the same of a port: both its framing, or both its message queue, ..
    fn is_same(&self, other: &PortOption) -> bool
        ensures { result ≡ is_same_option self.now other.now }
    {
        match self {
            PortOption::Msgq(_) | PortOption::MsgqOff => other.is_for_every_driver(),
            PortOption::Run(_) => matches!(other, PortOption::Run(_)),
            PortOption::Framing(_) => matches!(other, PortOption::Framing(_)),
            PortOption::Eof => matches!(other, PortOption::Eof),
            PortOption::ExitStatus => matches!(other, PortOption::ExitStatus),
            PortOption::Busy(_) => matches!(other, PortOption::Busy(_)),
        }
    }

    /// Whether one of the others says the same.
    fn is_among(&self, others: &[PortOption]) -> bool
        ensures { result ≡ list_any (is_same_option self.now) others.now }
    {
        others.iter().any(|other| self.is_same(other))
    }

    /// Writes this option into those of a port.
    fn set(&self, config: &mut Config) -> Result<(), NoMemory>
        ensures { IfOk result (λ _. config.new ≡ set_option self.now config.old) }
    {
        match self {
            PortOption::Msgq(limits) => {
                config.msgq_on = true;
                config.msgq_low = limits.low.min(limits.high);
                config.msgq_high = limits.high;
            }
            PortOption::MsgqOff => config.msgq_on = false,
            PortOption::Run(command) => config.run = command.share()?,
            PortOption::Framing(mode) => config.mode = *mode,
            PortOption::Eof => config.eof = true,
            PortOption::ExitStatus => config.exit_status = true,
            PortOption::Busy(limits) => {
                config.busy_low = limits.low.min(limits.high);
                config.busy_high = limits.high;
            }
        }
        Ok(())
    }
}

/// Whether a port with this driver can have each of the options.
pub(crate) fn all_suit(driver: &Reason, options: &[PortOption]) -> bool
    ensures { result ≡ list_all (suits_driver driver.now) options.now }
{
    options.iter().all(|option| option.suits(driver))
}

/// Whether one option stands twice. There are six, so at most seven are compared with all behind them.
fn is_repeated(options: &[PortOption]) -> bool
    ensures { result ≡ is_repeated options.now }
{
    match options {
        [] => false,
        [first, rest @ ..] => first.is_among(rest) || is_repeated(rest),
    }
}

/// The options of a port where these are written.
pub(crate) fn config_of(alloc: Global, options: &PortOptions) -> Result<Config, LineFault>
    requires { All InOption options.now }
    ensures ok { IfOk result (λ config. config_of options.now ≡ Ok config) }
    ensures config { IfOk result (λ config. is_config config ≡ true) }
    ensures fault { IfErr result (λ f. Tells (config_of options.now) f) }
{
    if is_repeated(options.as_slice()) {
        return Err(LineFault::Repeated);
    }
    let mut config = Config::plain(alloc)?;
    for option in options.as_slice() {
        option.set(&mut config)?;
    }
    Ok(config)
}
