//! Journals that are cut behind each of their lines, and in each.

use crate::judged::{is_bad_at, is_judged};
use history_replay::Verdict;
use std::alloc::Global;
use std::test::Fail;

/// A line, and what is told of the journal that ends with it; nothing where that isn't one.
type Line = (&'static str, Option<Verdict>);

/// A busy valve, a suspended process and its resume. Its port isn't closed.
const VALVE: [Line; 11] = [
    ("journal 1\n", None),
    ("processes a b\n", Some(Verdict::Legal)),
    ("port p 0 valve msgq 4096 8192\n", None),
    ("h p1 0 control 1 - ; ; busy 1, reply -\n", None),
    ("m busy\n", None),
    ("s p0 0\n", None),
    ("h p1 1 control 2 - ; ; busy 0, reply -\n", None),
    ("m free\n", None),
    ("r p0 0 1\n", None),
    ("h p0 0 command s 78 ; ; data plain 78\n", None),
    (
        "end\n",
        Some(Verdict::Illegal {
            port: 0,
            row: 7,
            law: 10,
        }),
    ),
];

/// A run of three ports that keeps the laws. On the second nothing happens but its close.
const RUN: [Line; 17] = [
    ("journal 1\n", None),
    ("processes a\n", Some(Verdict::Legal)),
    ("port p 0 echo msgq off\n", None),
    ("h p0 0 command - 616263 ; ; data plain 616263\n", None),
    ("h p0 1 gone done ; ;\n", None),
    ("m closed\n", None),
    ("end\n", Some(Verdict::Legal)),
    ("port q 0 tally msgq 1 1\n", None),
    ("h p0 0 gone done ; ;\n", None),
    ("m closed\n", None),
    ("end\n", Some(Verdict::Legal)),
    (
        "port c 0 spawn msgq off run 636174 packet 1 noeof status busy 4096 8192 events 0 1\n",
        None,
    ),
    ("h e 0 input 0 ; got 0261 ;\n", None),
    ("h e 1 input 0 ; got 62 ; data plain 6162\n", None),
    (
        "h e 2 input 0 ; end, status 3 ; xstatus 3, select 0 r 0, fail normal\n",
        None,
    ),
    ("m closed\n", None),
    ("end\n", Some(Verdict::Legal)),
];

/// Adds a line, and tells whether the text is bad where the line begins if it is cut before the line's end, and is judged so behind it.
fn is_told_with(
    alloc: Global,
    text: &mut String,
    line: &str,
    verdict: Option<Verdict>,
) -> Result<bool, Fail> {
    let begin = text.len() as u64;
    text.push_str(line.trim_end())?;
    if !is_bad_at(alloc, text.as_bytes(), begin) {
        return Ok(false);
    }
    text.push('\n')?;
    Ok(match verdict {
        Some(verdict) => is_judged(alloc, text.as_bytes(), verdict),
        None => is_bad_at(alloc, text.as_bytes(), text.len() as u64),
    })
}

#[test]
fn a_journal_that_is_cut_is_told_by_the_place_of_the_cut(rt: HostRuntime) -> Result<(), Fail> {
    let alloc = rt.alloc();
    assert!(rt; is_bad_at(alloc, b"", 0));
    for lines in [VALVE.as_slice(), RUN.as_slice()] {
        let mut text = String::new(alloc);
        for (line, verdict) in lines {
            assert!(rt; is_told_with(alloc, &mut text, line, *verdict)?, "{line:?}");
        }
    }
    Ok(())
}
