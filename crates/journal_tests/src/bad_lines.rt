//! A journal of which one line is changed, and the place that is told of it.

use crate::texts::{is_bad_at, is_journal};
use std::alloc::{AllocError, Global};
use std::test::Fail;

/// The lines of a journal with each part of the grammar.
const LINES: [&str; 19] = [
    "journal 1\n",
    "processes a b\n",
    "port c 1 spawn msgq 5 6 run 6364 packet 2 eof status busy 2 3 events 0 1\n",
    "h p0 0 command s 78 ; took 1, got 0a, status -7 ; data plain 78, busy 1, select 1 w 0\n",
    "m busy\n",
    "s p1 0\n",
    "r p1 0 1\n",
    "l p0 1 control 4294967295 00ff\n",
    "l e 0 input 5\n",
    "l w0 0 done 0 -\n",
    "l t 0 monitor 18446744073709551615\n",
    "l p0 2 exit kill\n",
    "h p0 3 connect 1 ; again ; reply badarg, xstatus -1, unuse 1, fail eio\n",
    "h p0 4 call 0 - ; ; async 0 7 255 01, watch 1\n",
    "end\n",
    "port d 0 valve_soft msgq off\n",
    "h p1 1 close ; ;\n",
    "m closed\n",
    "end\n",
];

/// A line by its number, from 0, a part of it, and what stands there in place of this part, so that the line isn't in the grammar.
type Change = (usize, &'static str, &'static str);

/// The first line, and the names of the processes.
const HEADS: [Change; 25] = [
    (0, "1", "2"),
    (0, "1", "01"),
    (0, "1", "+1"),
    (0, " 1", ""),
    (0, " ", "  "),
    (0, " ", "\t"),
    (0, "\n", " \n"),
    (0, "journal", " journal"),
    (0, "\n", "\r\n"),
    (0, "j", "J"),
    (0, "journal 1", ""),
    (0, "journal 1\n", ""),
    (1, "a b", "a  b"),
    (1, " a", "  a"),
    (1, "\n", " \n"),
    (1, "a b", "a,b"),
    (1, "a b", "a, b"),
    (1, "a b", "a\tb"),
    (1, "b", "0b"),
    (1, "b", "_b"),
    (1, "b", "B"),
    (1, "b", "b-c"),
    (1, "b", "bcdefghijklmnopqr"),
    (1, "processes", "process"),
    (1, "processes a b\n", ""),
];

/// The lines of ports.
const PORTS: [Change; 46] = [
    (2, "port", "ports"),
    (2, " c ", "  "),
    (2, " c ", " "),
    (2, " c ", " C "),
    (2, " c ", " cdefghijklmnopqrs "),
    (2, "c 1", "c 2"),
    (2, "c 1", "c 01"),
    (2, "c 1", "c b"),
    (2, "c 1", "c -"),
    (2, "spawn", "Spawn"),
    (2, "spawn", "ticker"),
    (2, "msgq 5 6 ", ""),
    (2, "msgq 5 6", "msgq on"),
    (2, "msgq 5 6", "msgq off 6"),
    (2, "msgq 5 6", "msgq 6 5"),
    (2, "msgq 5 6", "msgq 0 6"),
    (2, "msgq 5 6", "msgq 5 1073741825"),
    (2, "msgq 5 6", "msgq 5 06"),
    (2, "run 6364 ", ""),
    (2, "6364", "636"),
    (2, "6364", "636A"),
    (2, "6364", "\"cd\""),
    (2, "6364", ""),
    (2, "packet 2", "packet 3"),
    (2, "packet 2", "packet 02"),
    (2, "packet 2", "packet"),
    (2, "packet 2", "line 0"),
    (2, "packet 2", "line 262144"),
    (2, "packet 2", "stream 2"),
    (2, "packet 2", "stream line 80"),
    (2, "eof status", "status eof"),
    (2, "eof status", "eof"),
    (2, "busy 2 3", "busy 3 2"),
    (2, "busy 2 3", "busy 0 3"),
    (2, "busy 2 3", "busy 2 1073741825"),
    (2, "busy 2 3 ", ""),
    (2, "0 1\n", "0 4294967296\n"),
    (2, "0 1\n", "0 -1\n"),
    (2, "0 1\n", "0\n"),
    (2, "0 1\n", "0 1 2\n"),
    (2, "0 1\n", "0 1 \n"),
    (15, "valve_soft", "refuse1"),
    (15, "off", "off busy 1 2"),
    (
        15,
        "off",
        "off run - stream noeof nostatus busy 4096 8192 events 0 0",
    ),
    (15, " msgq off", ""),
    (15, "off", "1"),
];

/// The rows of handled tasks.
const HANDLED: [Change; 61] = [
    (3, "h", "x"),
    (3, "h", "H"),
    (3, "h", " h"),
    (3, "h ", "h  "),
    (3, "h ", "h"),
    (3, "p0", "0"),
    (3, "p0", "p"),
    (3, "p0", "p2"),
    (3, "p0", "p00"),
    (3, "p0", "q0"),
    (3, "p0", "e0"),
    (3, "p0 0", "p0"),
    (3, "p0 0", "p0 00"),
    (3, "p0 0", "p0 18446744073709551616"),
    (3, "command", "commands"),
    (3, "s 78", "x 78"),
    (3, "s 78", "78"),
    (3, "s 78", "s 7"),
    (3, "s 78", "s 7g"),
    (3, "s 78", "s"),
    (3, "s 78", "s --"),
    (3, "78 ; took", "78; took"),
    (3, "; took", ";  took"),
    (3, "; took", ";took"),
    (3, "took 1, got", "took 1,got"),
    (3, "took 1, got", "took 1 , got"),
    (3, "took 1, got", "took 1,  got"),
    (3, "took 1, got", "took 1 got"),
    (3, "took 1, got", "took 1; got"),
    (3, "took 1", "took 4294967296"),
    (3, "took 1", "took -1"),
    (3, "took 1", "took"),
    (3, "took 1", "eof"),
    (3, "took 1", ""),
    (3, "0a", "0A"),
    (3, "-7", "+7"),
    (3, "-7", "-07"),
    (3, "-7", "-0"),
    (3, "-7", "-2147483649"),
    (3, "-7", "2147483648"),
    (3, "-7 ; data", "-7, ; data"),
    (3, "-7 ; data", "-7 data"),
    (3, "-7 ; data", "-7 ; ; data"),
    (3, "plain ", ""),
    (3, "plain", "line"),
    (3, "plain 78", "plain"),
    (3, "plain 78", "plain 7"),
    (3, "78, busy", "78,busy"),
    (3, "busy 1", "busy 2"),
    (3, "busy 1", "busy"),
    (3, "w 0\n", "x 0\n"),
    (3, "w 0\n", "w 2\n"),
    (3, "w 0\n", "w 0,\n"),
    (3, "w 0\n", "w 0 \n"),
    (12, "connect 1", "connect 2"),
    (12, "again", "again 1"),
    (12, "badarg", "badargs"),
    (12, "fail eio", "fail EIO"),
    (13, "255", "256"),
    (13, "255 01", "255"),
    (13, "watch 1", "watch 2"),
];

/// The other rows, and the lines that end ports.
const OTHERS: [Change; 44] = [
    (4, "busy", "open"),
    (4, "busy", "Busy"),
    (4, " busy", ""),
    (4, "busy", "busy closed"),
    (4, "m busy", ""),
    (5, " 0", ""),
    (5, "0", "0 1"),
    (5, "p1", "p2"),
    (5, "0", "-0"),
    (6, "0 1", "0"),
    (6, "0 1", "0 1 2"),
    (6, "0 1", "0 18446744073709551616"),
    (6, "0 1", "0 01"),
    (7, "4294967295", "4294967296"),
    (7, "4294967295 ", ""),
    (7, "00ff", "00f"),
    (7, "00ff", "00ff ; ;"),
    (7, "control 4294967295 00ff", "close s"),
    (7, "control 4294967295 00ff", "connect 2"),
    (8, "e", "e0"),
    (8, "5", "5 r"),
    (8, "5", "-"),
    (8, "input", "dropped input"),
    (9, "w0", "w"),
    (9, "w0", "w4294967296"),
    (9, "done 0", "done"),
    (10, "t", "t0"),
    (10, "18446744073709551615", "18446744073709551616"),
    (11, "kill", "Kill"),
    (11, " kill", ""),
    (11, "kill", "kill now"),
    (11, "kill", "killkillkillkillk"),
    (14, "end\n", ""),
    (14, "end", "END"),
    (14, "end", "end "),
    (14, "end", "end\r"),
    (16, " ; ;", ""),
    (16, " ; ;", " ;"),
    (16, "close", "timeout 0"),
    (17, "m", "l"),
    (18, "end\n", "end"),
    (18, "end\n", ""),
    (18, "end", "ends"),
    (18, "end\n", "end \n"),
];

/// Adds these parts.
fn push_all(text: &mut String, parts: &[&str]) -> Result<(), AllocError> {
    for part in parts {
        text.push_str(part)?;
    }
    Ok(())
}

/// Adds a line with a part of it replaced, or as it is, and so not bad, where it has no such part.
fn push_changed(text: &mut String, line: &str, good: &str, bad: &str) -> Result<(), AllocError> {
    match line.split_once(good) {
        Some((front, back)) => push_all(text, &[front, bad, back]),
        None => push_all(text, &[line]),
    }
}

/// The journal with this change.
fn changed(alloc: Global, change: Change) -> Result<String, Fail> {
    let (number, good, bad) = change;
    let mut text = String::new(alloc);
    for (at, line) in LINES.iter().enumerate() {
        if at == number {
            push_changed(&mut text, line, good, bad)?;
        } else {
            text.push_str(line)?;
        }
    }
    Ok(text)
}

/// Where the line of this number begins.
fn place_of(number: usize) -> usize {
    let mut place = 0usize;
    for line in LINES.iter().take(number) {
        place = place.saturating_add(line.len());
    }
    place
}

/// Whether the journal with this change is bad where the changed line begins.
fn is_told(alloc: Global, change: Change) -> Result<bool, Fail> {
    let (number, _, _) = change;
    let text = changed(alloc, change)?;
    Ok(is_bad_at(alloc, text.as_str(), place_of(number) as u64))
}

#[test]
fn a_changed_line_is_bad_where_it_begins(rt: HostRuntime) -> Result<(), Fail> {
    for changes in [
        HEADS.as_slice(),
        PORTS.as_slice(),
        HANDLED.as_slice(),
        OTHERS.as_slice(),
    ] {
        for change in changes {
            assert!(rt; is_told(rt.alloc(), *change)?, "{change:?}");
        }
    }
    Ok(())
}

/// Whether the text is bad where these further bytes begin.
fn is_bad_behind(alloc: Global, text: &str, more: &str) -> Result<bool, Fail> {
    let longer = format!(in alloc; "{text}{more}")?;
    Ok(is_bad_at(alloc, longer.as_str(), text.len() as u64))
}

#[test]
fn the_lines_are_a_journal_and_no_line_stands_behind_the_last(rt: HostRuntime) -> Result<(), Fail> {
    let mut text = String::new(rt.alloc());
    push_all(&mut text, LINES.as_slice())?;
    assert!(rt; is_journal(rt.alloc(), text.as_str()));
    for more in ["end\n", "\n", "m busy\n", "#\n", "x"] {
        assert!(rt; is_bad_behind(rt.alloc(), text.as_str(), more)?, "{more:?}");
    }
    Ok(())
}

/// A journal with so many names and ports.
fn with_counts(alloc: Global, names: usize, ports: usize) -> Result<String, Fail> {
    let mut text = String::from_str(alloc, "journal 1\nprocesses")?;
    for _ in 0..names {
        text.push_str(" a")?;
    }
    text.push_str("\n")?;
    for _ in 0..ports {
        text.push_str("port p 31 echo msgq off\nend\n")?;
    }
    Ok(text)
}

#[test]
fn a_journal_has_at_most_32_names_and_32_ports(rt: HostRuntime) -> Result<(), Fail> {
    let alloc = rt.alloc();
    let full = with_counts(alloc, 32, 32)?;
    assert!(rt; is_journal(alloc, full.as_str()));
    let with_a_port_more = with_counts(alloc, 32, 33)?;
    assert!(rt; is_bad_at(alloc, with_a_port_more.as_str(), full.len() as u64));
    let with_a_name_more = with_counts(alloc, 33, 0)?;
    assert!(rt; is_bad_at(alloc, with_a_name_more.as_str(), 10));
    Ok(())
}
