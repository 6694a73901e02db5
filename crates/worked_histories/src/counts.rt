ghost use Rattle.std.specs.Prelude.{◌≡◌, ◌++◌, ◌∷◌, None, Some, [], codes, reverse};
ghost use Rattle.port_history.specs.Counts.{data_messages, end_reason, handled_bytes, handled_commands, late_commands, saved_data};
ghost use Rattle.worked_histories.specs.Rows.{judged};
ghost use Rattle.worked_histories.specs.Commands.{echo_port};
ghost use Rattle.worked_histories.specs.Owners.{killed_port};
ghost use Rattle.worked_histories.specs.Counts.{counted_port, saved_mail};

/// A report counts the commands that called the driver, their bytes, and the late ones; it tells the reason that linked processes were told, and
/// none of a port that is open.
pub fn commands_are_counted_where_they_call_the_driver()
    ensures lawful { judged echo_port counted_port ≡ None }
    ensures handled { handled_commands echo_port (reverse counted_port) ≡ 2 }
    ensures bytes { handled_bytes echo_port (reverse counted_port) ≡ 4 }
    ensures late { late_commands counted_port ≡ 1 }
    ensures end { end_reason echo_port (reverse counted_port) ≡ Some (codes "normal") }
    ensures killed { end_reason echo_port (reverse killed_port) ≡ Some (codes "killed") }
    ensures opened { end_reason echo_port [] ≡ None }
{}

/// The data of a process is saved port by port, a line with its end.
pub fn data_is_saved_port_by_port()
    ensures data { data_messages saved_mail ≡ 3 }
    ensures saved { saved_data 2 saved_mail ≡ codes "ab" ++ 10 ∷ codes "c" }
{}
