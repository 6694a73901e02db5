ghost use Rattle.std.specs.Prelude.{◌≡◌, None, [], reverse};
ghost use Rattle.port_history.specs.State.{state};
ghost use Rattle.port_history.specs.Mail.{mails};
ghost use Rattle.worked_histories.specs.Rows.{judged, breaks};
ghost use Rattle.worked_histories.specs.Commands.{echo_port};
ghost use Rattle.worked_histories.specs.Owners.{connected_port, connected_mail, monitored_port, watcher_mail, closer_mail, bad_close, bad_close_mail, killed_port, killed_mail, ended_owner};

/// A port that was connected to another process outlives its opener, and closes with its owner; neither gets an exit signal.
pub fn a_connected_port_outlives_its_opener()
    ensures lawful { judged echo_port connected_port ≡ None }
    ensures opener { mails echo_port 0 (reverse connected_port) ≡ connected_mail }
    ensures owner { mails echo_port 1 (reverse connected_port) ≡ [] }
{}

/// A monitor that was taken away is told nothing; the owner that asked is told that the port is closed.
pub fn monitors_are_told_of_the_close()
    ensures lawful { judged echo_port monitored_port ≡ None }
    ensures watcher { mails echo_port 1 (reverse monitored_port) ≡ watcher_mail }
    ensures closer { mails echo_port 0 (reverse monitored_port) ≡ closer_mail }
{}

/// An owner form of another process closes nothing and is told to the owner; a process that has ended can't be the owner.
pub fn owner_forms_of_others_are_bad_signals()
    ensures unclosed { judged echo_port bad_close ≡ breaks 10 1 }
    ensures told { mails echo_port 0 (reverse bad_close) ≡ bad_close_mail }
    ensures owner { (state echo_port (reverse ended_owner)).ties.owner ≡ 0 }
    ensures refused { mails echo_port 0 (reverse ended_owner) ≡ bad_close_mail }
{}

/// A normal exit signal of a linked process closes nothing; `kill` does, and is told as `killed`.
pub fn a_killed_port_tells_killed()
    ensures lawful { judged echo_port killed_port ≡ None }
    ensures told { mails echo_port 0 (reverse killed_port) ≡ killed_mail }
{}
