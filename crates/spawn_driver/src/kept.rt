ghost use Rattle.std.specs.Prelude.{◌≡◌};

use packet_framing::Unframer;
use port_config::Config;
use std::marker::Model;

/// What the driver of a program keeps beside its queue.
#[derive(Drop)]
pub(crate) struct Kept {
    /// The options of the port.
    pub(crate) config: Config,
    /// The event of what the program gives.
    pub(crate) read: u32,
    /// The event of what the program takes.
    pub(crate) write: u32,
    /// What finds the messages in the program's output. There is none once too many bytes were taken or a header told too many: no more
    /// messages are found then.
    pub(crate) unframer: Option<Unframer>,
    /// How many bytes were taken from the program.
    pub(crate) taken: u64,
    /// Whether the port is held busy.
    pub(crate) busy: bool,
    /// Whether a call of the program has failed. It is given nothing more then.
    pub(crate) failed: bool,
}

impl Model for Kept {
    ghost use Rattle.std.specs.Prelude.{◌≡◌, None, IfSome, is_none};
    ghost use Rattle.packet_framing.specs.Messages.{IsServed};
    ghost use Rattle.packet_framing.specs.Unframed.{Unframed};
    ghost use Rattle.driver_model.specs.Calls.{Program};
    ghost use Rattle.spawn_driver.specs.Serving.{rest_in, HoldsBack};

    ghost Value = { Program };

    ghost view = { λ p. record {
      config = p.config;
      read = p.read;
      write = p.write;
      rest = rest_in p.unframer;
      refused = is_none p.unframer;
      taken = p.taken;
      busy = p.busy;
      failed = p.failed;
    } };

    ghost invariant = { λ p. IsServed p.config.mode × IfSome p.unframer (λ (u : Unframed). (u.mode ≡ p.config.mode) × (u.oversize ≡ None) × HoldsBack u.mode u.held) };
}
