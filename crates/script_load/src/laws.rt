ghost use Rattle.std.specs.Prelude.{◌≡◌, ℕ};
ghost use Rattle.script_load.specs.Load.{load_plan, commands_to, command_count, values};

/// A law of the definitions alone: as many commands go to a port as its process waits for.
pub fn each_wait_counts_the_commands()
    ensures { (number port : ℕ) → commands_to port (load_plan number).steps ≡ command_count port (values 16000 number) }
{}
