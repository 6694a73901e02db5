ghost use Rattle.std.specs.Prelude.{◌≡◌, ◌++◌, ◌∷◌, [], All, codes};
ghost use Rattle.port_history.specs.Counts.{saved_of, saved_data};
ghost use Rattle.run_report.specs.Ports.{HasEnded};
ghost use Rattle.run_report.specs.Report.{text_of, summary_of};
ghost use Rattle.worked_reports.specs.Worked.{mails_of_two_ports, shared_report, shared_text, wide_report, wide_summary, wide_text, worked_report, worked_summary, worked_text};

/// One process sends `abc` to its echo port and closes it: the definitions give the three lines, with the digest of `abc`, and the two
/// lines of a summary.
pub fn a_command_and_a_close_are_reported()
    ensures ended { All (HasEnded 1) worked_report.ports }
    ensures text { text_of worked_report ≡ worked_text }
    ensures summary { summary_of 7 worked_report ≡ worked_summary }
{}

/// Commands of two processes on one port are told apart, in whatever order they came.
pub fn commands_of_two_processes_are_told_apart()
    ensures ended { All (HasEnded 2) shared_report.ports }
    ensures text { text_of shared_report ≡ shared_text }
{}

/// An owner's command of another process calls no driver, a late command is told as late, `kill` is told as `killed`, and a driver's failure as
/// its own reason. A dropped and a suspended command are counted where they are.
pub fn what_called_no_driver_is_not_counted()
    ensures ended { All (HasEnded 2) wide_report.ports }
    ensures text { text_of wide_report ≡ wide_text }
    ensures summary { summary_of 7 wide_report ≡ wide_summary }
{}

/// The data of two ports is saved port by port, a line with its end.
pub fn what_is_saved_is_told_port_by_port()
    ensures first { saved_of 0 mails_of_two_ports ≡ codes "ab" ++ 10 ∷ [] }
    ensures second { saved_of 1 mails_of_two_ports ≡ codes "c" }
    ensures both { saved_data 2 mails_of_two_ports ≡ codes "ab" ++ 10 ∷ codes "c" }
{}
