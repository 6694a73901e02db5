//! Commands over files and a sink of memory. That a journal has at most 268,435,456 bytes is left to the contract: the row would need as many.

use outside::{MemFiles, MemSink};
use plain_command::{Cause, PlainEnd, ScriptFault, is_plain, plain_command};
use std::alloc::Global;
use std::test::Fail;

/// A process that hands three bytes to its port and closes it.
const ABC: &str = "process a\nport p a echo\na command p \"abc\"\na close p\n";

/// The journal of that process and its port.
const JOURNAL: &str = "journal 1
processes a
port p 0 echo msgq 4096 8192
h p0 0 command - 616263 ; ; data plain 616263
h p0 1 close ; ;
m closed
end
";

/// The words as a command takes them.
fn owned(alloc: Global, words: &[&str]) -> Result<Vec<String>, Fail> {
    let mut owned = Vec::new(alloc);
    for word in words {
        owned.push(String::from_str(alloc, word)?)?;
    }
    Ok(owned)
}

/// Files that hold these bytes, under the name `s`.
fn holding(alloc: Global, bytes: &[u8]) -> Result<MemFiles, Fail> {
    let mut files = MemFiles::new(alloc);
    files.hold("s", bytes)?;
    Ok(files)
}

/// Does what the words ask for, over files and a sink of memory.
fn run(alloc: Global, words: &[String], files: &mut MemFiles, out: &mut MemSink) -> PlainEnd {
    plain_command(alloc, words, files, out)
}

/// Whether the words end so over the files, and put out this text.
fn ends(
    alloc: Global,
    words: &[&str],
    files: &mut MemFiles,
    end: PlainEnd,
    text: &str,
) -> Result<bool, Fail> {
    let words = owned(alloc, words)?;
    let mut out = MemSink::new(alloc);
    let plain = run(alloc, words.as_slice(), files, &mut out);
    Ok(plain == end && out.bytes() == text.as_bytes())
}

/// Whether the words end so over a file `s` of these bytes, and put out this text.
fn ends_over(
    alloc: Global,
    words: &[&str],
    bytes: &[u8],
    end: PlainEnd,
    text: &str,
) -> Result<bool, Fail> {
    let mut files = holding(alloc, bytes)?;
    ends(alloc, words, &mut files, end, text)
}

/// The end of a command that did its work.
const DONE: PlainEnd = PlainEnd {
    status: 0,
    cause: Cause::Done,
};

/// The end of a command whose input wasn't read.
const UNREAD: PlainEnd = PlainEnd {
    status: 3,
    cause: Cause::ReadFault { line: 0 },
};

/// The end of a command whose line wasn't put out.
const UNPUT: PlainEnd = PlainEnd {
    status: 4,
    cause: Cause::WriteFault,
};

/// Scripts, and the lines of their checks.
const CHECKED: [(&str, &str); 3] = [
    ("", "ok processes=0 ports=0 steps=0\n"),
    (ABC, "ok processes=1 ports=1 steps=2\n"),
    (
        "process a\nprocess b\nport p a nosuch\nport q b spawn\nport r b echo\na die done\n",
        "ok processes=2 ports=3 steps=1\n",
    ),
];

#[test]
fn a_check_prints_how_much_a_script_has(rt: HostRuntime) -> Result<(), Fail> {
    let words = ["check", "s"];
    for (script, line) in CHECKED {
        assert!(rt;
            ends_over(rt.alloc(), &words, script.as_bytes(), DONE, line)?,
            "{script}"
        );
    }
    Ok(())
}

#[test]
fn a_check_touches_no_file_that_the_script_names(rt: HostRuntime) -> Result<(), Fail> {
    let alloc = rt.alloc();
    let script = "process a\njournal \"j\"\nport p a echo\nsave a p \"d\"\na file p 2 \"f\"\n";
    let line = "ok processes=1 ports=1 steps=1\n";
    let mut files = holding(alloc, script.as_bytes())?;
    assert!(rt; ends(alloc, &["check", "s"], &mut files, DONE, line)?);
    assert!(rt; files.held("j").is_none());
    assert!(rt; files.held("d").is_none());
    Ok(())
}

/// Scripts with a fault.
const FAULTY: [(&str, ScriptFault); 4] = [
    ("process a\nbad\n", ScriptFault::BadLine { line: 2 }),
    ("a close p", ScriptFault::UnknownName { line: 1 }),
    (
        "process a\n\nprocess a\n",
        ScriptFault::Repeated { line: 3 },
    ),
    (
        "process a\nport p a echo\na die done\na close p\n",
        ScriptFault::BadLine { line: 4 },
    ),
];

#[test]
fn a_fault_of_the_script_is_told_with_its_line(rt: HostRuntime) -> Result<(), Fail> {
    let words = ["check", "s"];
    for (script, fault) in FAULTY {
        let end = PlainEnd {
            status: 2,
            cause: Cause::Script { fault },
        };
        assert!(rt;
            ends_over(rt.alloc(), &words, script.as_bytes(), end, "")?,
            "{script}"
        );
    }
    Ok(())
}

/// Whether a command reads neither a file that isn't there nor one whose read fails.
fn fails_to_read(alloc: Global, word: &str, text: &str) -> Result<bool, Fail> {
    let mut files = holding(alloc, text.as_bytes())?;
    files.fail_read(1)?;
    Ok(
        ends(alloc, &[word, "t"], &mut files, UNREAD, "")?
            && ends(alloc, &[word, "s"], &mut files, UNREAD, "")?,
    )
}

#[test]
fn a_script_that_is_not_read_is_a_read_fault(rt: HostRuntime) -> Result<(), Fail> {
    assert!(rt; fails_to_read(rt.alloc(), "check", ABC)?);
    Ok(())
}

/// Whether the check of a comment of so many bytes ends so, and puts out this line.
fn check_ends(alloc: Global, count: usize, end: PlainEnd, line: &str) -> Result<bool, Fail> {
    let script = vec![in alloc; b'#'; count]?;
    ends_over(alloc, &["check", "s"], script.as_slice(), end, line)
}

#[test]
fn a_script_has_at_most_2_to_the_20th_bytes(rt: HostRuntime) -> Result<(), Fail> {
    let line = "ok processes=0 ports=0 steps=0\n";
    let over = PlainEnd {
        status: 10,
        cause: Cause::Limit { line: 0 },
    };
    assert!(rt; check_ends(rt.alloc(), 1_048_576, DONE, line)?);
    assert!(rt; check_ends(rt.alloc(), 1_048_577, over, "")?);
    Ok(())
}

/// A sink whose first put fails once it took so many bytes.
fn failing(alloc: Global, count: usize) -> Result<MemSink, Fail> {
    let mut out = MemSink::new(alloc);
    out.fail_put(0)?;
    out.take_before_failing(count);
    Ok(out)
}

/// Whether the words end as a write fault over a file `s` of this text where a put fails once it took these bytes.
fn fails_to_put(alloc: Global, words: &[&str], text: &str, taken: &str) -> Result<bool, Fail> {
    let words = owned(alloc, words)?;
    let mut files = holding(alloc, text.as_bytes())?;
    let mut out = failing(alloc, taken.len())?;
    let plain = run(alloc, words.as_slice(), &mut files, &mut out);
    Ok(plain == UNPUT && out.bytes() == taken.as_bytes())
}

#[test]
fn a_put_that_fails_is_a_write_fault(rt: HostRuntime) -> Result<(), Fail> {
    let words = ["check", "s"];
    for taken in ["", "ok pro"] {
        assert!(rt; fails_to_put(rt.alloc(), &words, ABC, taken)?, "{taken}");
    }
    Ok(())
}

/// Legal journals, and the lines of their replays.
const LEGAL: [(&str, &str); 2] = [
    ("journal 1\nprocesses\n", "legal ports=0 rows=0\n"),
    (JOURNAL, "legal ports=1 rows=3\n"),
];

#[test]
fn a_replay_of_a_legal_journal_prints_how_much_it_has(rt: HostRuntime) -> Result<(), Fail> {
    let words = ["replay", "s"];
    for (journal, line) in LEGAL {
        assert!(rt;
            ends_over(rt.alloc(), &words, journal.as_bytes(), DONE, line)?,
            "{journal}"
        );
    }
    Ok(())
}

/// Journals that break a law: the port has no mark of its close, and its driver sends back other bytes than it got.
const ILLEGAL: [(&str, u64, u32); 2] = [
    (
        "journal 1
processes a
port p 0 echo msgq 4096 8192
h p0 0 command - 616263 ; ; data plain 616263
h p0 1 close ; ;
end
",
        2,
        5,
    ),
    (
        "journal 1
processes a
port p 0 echo msgq 4096 8192
h p0 0 command - 616263 ; ; data plain 616264
h p0 1 close ; ;
m closed
end
",
        0,
        4,
    ),
];

#[test]
fn a_broken_law_is_told_with_its_row(rt: HostRuntime) -> Result<(), Fail> {
    let words = ["replay", "s"];
    for (journal, row, law) in ILLEGAL {
        let end = PlainEnd {
            status: 9,
            cause: Cause::Illegal { port: 0, row, law },
        };
        assert!(rt;
            ends_over(rt.alloc(), &words, journal.as_bytes(), end, "")?,
            "{journal}"
        );
    }
    Ok(())
}

/// Texts that are no journals, and where their first bad lines begin.
const NO_JOURNALS: [(&str, u64); 5] = [
    ("", 0),
    ("journal 2\nprocesses\n", 0),
    ("journal 1\n", 10),
    (
        "journal 1\nprocesses a\nport p 1 echo msgq 4096 8192\nend\n",
        22,
    ),
    (
        "journal 1
processes a
port p 0 echo msgq 4096 8192
h p0 0 command - 616263 ; ; data plain 616263
h p0 1 close ; ;
m closed
",
        123,
    ),
];

#[test]
fn a_text_that_is_no_journal_is_told_with_its_byte(rt: HostRuntime) -> Result<(), Fail> {
    let words = ["replay", "s"];
    for (text, at) in NO_JOURNALS {
        let end = PlainEnd {
            status: 11,
            cause: Cause::JournalText { at },
        };
        assert!(rt;
            ends_over(rt.alloc(), &words, text.as_bytes(), end, "")?,
            "{text}"
        );
    }
    Ok(())
}

#[test]
fn a_journal_that_is_not_read_is_a_read_fault(rt: HostRuntime) -> Result<(), Fail> {
    assert!(rt; fails_to_read(rt.alloc(), "replay", JOURNAL)?);
    Ok(())
}

#[test]
fn a_put_of_a_replay_that_fails_is_a_write_fault(rt: HostRuntime) -> Result<(), Fail> {
    let words = ["replay", "s"];
    for taken in ["", "legal "] {
        assert!(rt;
            fails_to_put(rt.alloc(), &words, JOURNAL, taken)?,
            "{taken}"
        );
    }
    Ok(())
}

/// Words that aren't served, whether the first of them is that of a command which runs nothing, and the place that is told.
const UNSERVED: [(&[&str], bool, u32); 16] = [
    (&[], false, 1),
    (&["run", "s"], false, 1),
    (&["checks", "s"], false, 1),
    (&["check"], true, 2),
    (&["check", ""], true, 2),
    (&["check", "-x"], true, 2),
    (&["check", "-", "s"], true, 2),
    (&["check", "s", "t"], true, 3),
    (&["check", "s", "", "t"], true, 3),
    (&["replays", "s"], false, 1),
    (&["replay"], true, 2),
    (&["replay", ""], true, 2),
    (&["replay", "-x"], true, 2),
    (&["replay", "-", "s"], true, 2),
    (&["replay", "s", "t"], true, 3),
    (&["replay", "s", "", "t"], true, 3),
];

/// Whether the words are for `plain_command`.
fn are_plain(alloc: Global, words: &[&str]) -> Result<bool, Fail> {
    let words = owned(alloc, words)?;
    Ok(is_plain(words.as_slice()))
}

#[test]
fn words_that_are_not_served_are_told_by_place(rt: HostRuntime) -> Result<(), Fail> {
    for (words, plain, at) in UNSERVED {
        let end = PlainEnd {
            status: 1,
            cause: Cause::Usage { at },
        };
        assert!(rt; are_plain(rt.alloc(), words)? == plain, "{words:?}");
        assert!(rt;
            ends_over(rt.alloc(), words, ABC.as_bytes(), end, "")?,
            "{words:?}"
        );
    }
    Ok(())
}
