ghost use Rattle.std.specs.Prelude.{◌≡◌, map, string_bytes};
ghost use Rattle.program_io.specs.Files.{files_view};
ghost use Rattle.program_io.specs.Sink.{sink_view};
ghost use Rattle.run_report.specs.Cause.{status_of};
ghost use Rattle.plain_command.specs.Ends.{PlainEnds};
ghost use Rattle.plain_command.specs.Words.{asked};

use crate::checking::check_script;
use crate::replaying::replay_journal;
use crate::words::{PlainWords, plain_words};
use outside::{Files, Sink};
use run_report::Cause;
use std::alloc::Global;

/// How a command ended that runs nothing: the status with which the program ends, and its cause.
#[derive(Clone, Copy, Debug, PartialEq, Eq)]
pub struct PlainEnd {
    pub status: u8,
    pub cause: Cause,
}

impl PlainEnd {
    fn of(cause: Cause) -> PlainEnd
        ensures { result ≡ record { status = status_of cause; cause = cause } }
    {
        PlainEnd {
            status: cause.status(),
            cause,
        }
    }
}

/// Does what the words ask for: `check SCRIPT` or `replay JOURNAL`. They exclude the program's own name.
///
/// SCRIPT and JOURNAL aren't empty and don't begin with `-`. They are read from `files`; a script has at most 1,048,576 bytes, and a journal at most 268,435,456. What is
/// put to `out` is one line, ended with byte 10: `ok processes=P ports=Q steps=S` of a script, and `legal ports=Q rows=R` of a journal, if its histories are legal. No file
/// that the script names is read, and none is written.
///
/// `Usage` tells a word that is missing as the place behind the last. In `ReadFault` and `Limit` the line is 0. `NoDriver`, `StartRefused` and `PollFault` are no causes of
/// these commands; `Illegal` and `JournalText` are causes of a replay alone, and `Script` of a check.
pub fn plain_command<F: Files, K: Sink>(
    alloc: Global,
    words: &[String],
    files: &mut F,
    out: &mut K,
) -> PlainEnd
    ensures status { result.status ≡ status_of result.cause }
    ensures ends { PlainEnds
        (record {
          words = asked (map (λ w. string_bytes w) words.now);
          files = files_view F.told F.answered F.wrote F.reads F.writes files.old;
          files_after = files_view F.told F.answered F.wrote F.reads F.writes files.new;
          sink = sink_view K.written K.took K.faults out.old;
          sink_after = sink_view K.written K.took K.faults out.new;
        }) result.cause }
{
    match plain_words(words) {
        Ok(PlainWords::Check { script }) => PlainEnd::of(check_script(alloc, files, out, script)),
        Ok(PlainWords::Replay { journal }) => {
            PlainEnd::of(replay_journal(alloc, files, out, journal))
        }
        Err(at) => PlainEnd::of(Cause::Usage { at }),
    }
}
