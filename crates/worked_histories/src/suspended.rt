ghost use Rattle.std.specs.Prelude.{◌≡◌, ◌++◌, None, reverse};
ghost use Rattle.port_history.specs.Mail.{mails};
ghost use Rattle.worked_histories.specs.Rows.{judged, breaks};
ghost use Rattle.worked_histories.specs.Suspended.{valve_port, soft_port, closing, suspended_sender, suspended_mail, resumed_before_listed, resumed_while_busy, resumed_by_a_busy_queue, resumed_for_another, resumed_twice, never_listed, listed_behind_its_command, handled_while_busy, busy_without_its_mark, forced_command, resumed_by_the_close, left_listed};

/// A command on a busy valve suspends its sender, which is resumed once the valve is free; the history isn't finished before the
/// port is closed.
pub fn a_suspended_sender_is_resumed()
    ensures lawful { judged valve_port (suspended_sender ++ closing) ≡ None }
    ensures mail { mails valve_port 0 (reverse suspended_sender) ≡ suspended_mail }
    ensures unfinished { judged valve_port suspended_sender ≡ breaks 10 7 }
    ensures never { judged valve_port never_listed ≡ breaks 6 4 }
    ensures behind { judged valve_port listed_behind_its_command ≡ breaks 6 1 }
    ensures at_the_close { judged valve_port resumed_by_the_close ≡ None }
    ensures left { judged valve_port left_listed ≡ breaks 10 6 }
{}

/// A resume names the first listed task, once, while neither the port nor its queue is busy.
pub fn resumes_come_as_they_may()
    ensures unlisted { judged valve_port resumed_before_listed ≡ breaks 7 2 }
    ensures busy { judged valve_port resumed_while_busy ≡ breaks 7 3 }
    ensures queue { judged valve_port resumed_by_a_busy_queue ≡ breaks 7 5 }
    ensures another { judged valve_port resumed_for_another ≡ breaks 7 5 }
    ensures twice { judged valve_port resumed_twice ≡ breaks 7 7 }
{}

/// A busy port handles no command but a forced one.
pub fn forced_commands_pass_a_busy_port()
    ensures forced { judged soft_port (forced_command ++ closing) ≡ None }
    ensures plain { judged valve_port handled_while_busy ≡ breaks 3 2 }
    ensures unmarked { judged valve_port busy_without_its_mark ≡ breaks 5 1 }
{}
