use no_memory::NoMemory;

/// Why a process doesn't run to its end.
#[derive(Clone, Copy)]
pub(crate) enum Halt {
    /// The run was stopped.
    Stopped,
    /// It found no memory.
    NoMemory,
}

impl From<NoMemory> for Halt {
    ghost use Rattle.std.specs.Prelude.{◌≡◌};
    ghost use Rattle.process_job.specs.declared.halt.Halt.TheVariants as halt;

    ghost from_gives = { λ _ h. h ≡ halt.NoMemory };

    fn from(_: NoMemory) -> Halt {
        Halt::NoMemory
    }
}
