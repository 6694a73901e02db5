ghost use Rattle.std.specs.Prelude.{◌≡◌, ◌∷◌, [], None, Some, codes, reverse};
ghost use Rattle.packet_framing.specs.declared.mode.Mode.TheVariants.{Packet2, Packet4, Line, Stream};
ghost use Rattle.port_history.specs.State.{state};
ghost use Rattle.port_history.specs.Mail.{mails};
ghost use Rattle.worked_histories.specs.Rows.{judged, breaks};
ghost use Rattle.worked_histories.specs.Programs.{program_port, close_over_five_rows, killed_program, event_never_dropped, ready_while_not_selected, taken_after_the_stop, dropped_twice, took_more_than_was_offered, failed_fetch, failed_mail, packets, lines, streamed, streamed_with_an_empty_message, oversized};

/// A close waits until the program has taken what is queued; a kill doesn't. Each event gets its `stop_select` once.
pub fn a_close_waits_for_the_queue()
    ensures lawful { judged (program_port Stream) close_over_five_rows ≡ None }
    ensures given_back { (state (program_port Stream) (reverse close_over_five_rows)).given_back ≡ 1 ∷ 0 ∷ [] }
    ensures killed { judged (program_port Stream) killed_program ≡ None }
    ensures reason { (state (program_port Stream) (reverse killed_program)).reason ≡ Some (codes "kill") }
    ensures held { judged (program_port Stream) event_never_dropped ≡ breaks 10 8 }
{}

/// A ready event is handled exactly where it is selected and armed, a dropped one where it waits.
pub fn an_event_is_handled_where_it_is_armed()
    ensures unselected { judged (program_port Stream) ready_while_not_selected ≡ breaks 8 0 }
    ensures stopped { judged (program_port Stream) taken_after_the_stop ≡ breaks 8 3 }
    ensures twice { judged (program_port Stream) dropped_twice ≡ breaks 8 9 }
    ensures taken { judged (program_port Stream) took_more_than_was_offered ≡ breaks 4 1 }
{}

/// A fetch that fails closes the port with `eio`, and its driver is stopped in that row.
pub fn a_failed_fetch_ends_the_port()
    ensures lawful { judged (program_port Stream) failed_fetch ≡ None }
    ensures told { mails (program_port Stream) 0 (reverse failed_fetch) ≡ failed_mail }
{}

/// What a program gives is told as packets, lines or a stream, whatever its chunks.
pub fn what_a_program_gives_is_unframed()
    ensures packets { judged (program_port Packet2) packets ≡ None }
    ensures lines { judged (program_port (Line 3)) lines ≡ None }
    ensures streamed { judged (program_port Stream) streamed ≡ breaks 10 1 }
    ensures empty { judged (program_port Stream) streamed_with_an_empty_message ≡ breaks 4 0 }
    ensures oversized { judged (program_port Packet4) oversized ≡ None }
{}
