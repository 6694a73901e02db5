ghost use Rattle.std.specs.Prelude.{◌≡◌, None, reverse};
ghost use Rattle.port_history.specs.Mail.{mails};
ghost use Rattle.worked_histories.specs.Rows.{judged, breaks};
ghost use Rattle.worked_histories.specs.Commands.{echo_port, two_commands, two_commands_mail, exchanged_commands, repeated_data, close_without_its_mark, mark_of_nothing, two_closes, late_while_open, late_control, late_control_mail, store_port, flushed_store, store_without_its_flush};

/// Two commands and a close on an echo port keep every law, and their neighbours break one.
pub fn commands_and_a_close_are_lawful()
    ensures lawful { judged echo_port two_commands ≡ None }
    ensures mail { mails echo_port 0 (reverse two_commands) ≡ two_commands_mail }
    ensures exchanged { judged echo_port exchanged_commands ≡ breaks 1 0 }
    ensures repeated { judged echo_port repeated_data ≡ breaks 4 0 }
    ensures unmarked { judged echo_port close_without_its_mark ≡ breaks 5 3 }
    ensures marked { judged echo_port mark_of_nothing ≡ breaks 5 1 }
    ensures closed_twice { judged echo_port two_closes ≡ breaks 2 4 }
    ensures early { judged echo_port late_while_open ≡ breaks 2 1 }
{}

/// A control that comes when the port is closed is late, and answered `badarg`.
pub fn a_late_control_is_answered_badarg()
    ensures lawful { judged echo_port late_control ≡ None }
    ensures mail { mails echo_port 0 (reverse late_control) ≡ late_control_mail }
{}

/// A store that holds bytes sends them in the row that closes it.
pub fn a_store_is_flushed_as_it_closes()
    ensures lawful { judged store_port flushed_store ≡ None }
    ensures unflushed { judged store_port store_without_its_flush ≡ breaks 4 1 }
{}
