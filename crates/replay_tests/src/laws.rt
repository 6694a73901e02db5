//! Small histories, and what a replay tells of each.

use crate::judged::is_judged;
use history_replay::Verdict;
use std::alloc::Global;
use std::test::Fail;

/// The lines of a port before its rows, by the kind of its driver.
const ECHO: &str = "port p 0 echo msgq 4096 8192\n";

const VALVE: &str = "port p 0 valve msgq 4096 8192\n";

const STORE: &str = "port p 0 store msgq 4096 8192\n";

const DIGEST: &str = "port p 0 digest msgq 4096 8192\n";

const STREAM: &str =
    "port p 0 spawn msgq off run 636174 stream noeof nostatus busy 4096 8192 events 0 1\n";

const PACKET: &str =
    "port p 0 spawn msgq off run 636174 packet 1 noeof status busy 4096 8192 events 0 1\n";

/// Histories that keep the laws and are finished.
const LEGAL: [(&str, &str); 10] = [
    (
        ECHO,
        "h p0 0 command - 616263 ; ; data plain 616263\nh p0 1 close ; ;\nm closed\n",
    ),
    // Another process than the owner asks for the close by the owner's form, and what comes after the close is late.
    (
        ECHO,
        "h p1 0 ownerclose ; ;\nh p0 0 close ; ;\nm closed\nl p1 1 command - 61\nl e 0 input 5\n",
    ),
    // A busy port, a suspended process and its resume.
    (
        VALVE,
        "h p1 0 control 1 - ; ; busy 1, reply -\nm busy\ns p0 0\nh p1 1 control 2 - ; ; busy 0, reply -\nm free\nr p0 0 1\n\
         h p0 0 command s 78 ; ; data plain 78\nh p0 1 close ; ;\nm closed\n",
    ),
    // The queue is sent as the port closes.
    (
        STORE,
        "h p0 0 command - 6162 ; ;\nh p0 1 close ; ; data plain 6162\nm closed\n",
    ),
    // A kill sends nothing.
    (
        STORE,
        "h p0 0 command - 6162 ; ;\nh p0 1 exit kill ; ;\nm closed\n",
    ),
    // A job whose result comes behind the close.
    (
        DIGEST,
        "h p0 0 command - 00016162 ; ; async 0 0 1 6162\nh w0 0 done 0 6261 ; ; data plain 6261\nh p0 1 command - 000163 ; ; async 1 0 1 63\n\
         h p0 2 close ; ;\nm closed\nl w0 1 done 1 63\n",
    ),
    // A stream that is cut into messages of any lengths.
    (
        STREAM,
        "h p0 0 command - 616263 ; ; select 1 w 1\nh e 0 output 1 ; took 3 ; select 1 w 0\nh e 1 input 0 ; got 616263 ; data plain 61, data plain 6263\n\
         h e 2 input 0 ; again ;\nh p0 1 close ; ;\nm closed\nh e 3 dropped 0 ; ;\n",
    ),
    // Packets over several chunks, and the end of the program with its status.
    (
        PACKET,
        "h e 0 input 0 ; got 0261 ;\nh e 1 input 0 ; got 6201 ; data plain 6162\nh e 2 input 0 ; got 63 ; data plain 63\n\
         h e 3 input 0 ; end, status 3 ; xstatus 3, select 0 r 0, fail normal\nm closed\n",
    ),
    // A call of the program that fails ends the port.
    (
        PACKET,
        "h p0 0 command - 61 ; ; select 1 w 1\nh e 0 output 1 ; failed ; fail eio\nm closed\nh e 1 dropped 0 ; ;\nh e 2 dropped 1 ; ;\n",
    ),
    // The owner's end closes the port.
    (ECHO, "h p0 0 gone normal ; ;\nm closed\n"),
];

/// Histories that break a law: the row, from 0, and the law.
const ILLEGAL: [(&str, &str, u64, u32); 30] = [
    // Order: a number is left out, is told twice, or the signal isn't the sender's.
    (ECHO, "h p0 1 close ; ;\nm closed\n", 0, 1),
    (
        ECHO,
        "h p0 0 command - 61 ; ; data plain 61\nh p0 0 close ; ;\nm closed\n",
        1,
        1,
    ),
    (ECHO, "h e 0 close ; ;\nm closed\n", 0, 1),
    (ECHO, "h p0 0 input 5 ; ;\n", 0, 1),
    // Lifetime: handled behind the close, or late before it.
    (
        ECHO,
        "h p0 0 close ; ;\nm closed\nh p0 1 command - 61 ; ; data plain 61\n",
        2,
        2,
    ),
    (ECHO, "l p0 0 command - 61\n", 0, 2),
    // Busy: a busy port handles a command.
    (
        VALVE,
        "h p1 0 control 1 - ; ; busy 1, reply -\nm busy\nh p0 0 command - 78 ; ; data plain 78\n",
        2,
        3,
    ),
    // Effects: other data, one effect more, one less, or answers that nothing asked for.
    (ECHO, "h p0 0 command - 61 ; ; data plain 62\n", 0, 4),
    (ECHO, "h p0 0 command - 61 ; ; data plain 61, eof\n", 0, 4),
    (ECHO, "h p0 0 command - 61 ; ;\n", 0, 4),
    (ECHO, "h p0 0 command - 61 ; took 1 ; data plain 61\n", 0, 4),
    (
        STORE,
        "h p0 0 command - 6162 ; ;\nh p0 1 close ; ;\nm closed\n",
        1,
        4,
    ),
    (
        STREAM,
        "h e 0 input 0 ; got 616263 ; data plain 61, data plain 6264\n",
        0,
        4,
    ),
    (
        STREAM,
        "h p0 0 command - 61 ; ; select 1 w 1\nh e 0 output 1 ; took 2 ; select 1 w 0\n",
        1,
        4,
    ),
    (
        PACKET,
        "h e 0 input 0 ; got 026162 ; data plain 61, data plain 62\n",
        0,
        4,
    ),
    // Effects are judged before the law of jobs: the driver was stopped, and what it would have sent is left out.
    (
        DIGEST,
        "h p0 0 command - 000161 ; ; async 0 0 1 61\nh p0 1 close ; ;\nm closed\nh w0 0 done 0 61 ; ;\n",
        3,
        4,
    ),
    // Marks: one is left out, stands where none is due, or is another one.
    (ECHO, "h p0 0 close ; ;\n", 1, 5),
    (ECHO, "m busy\n", 0, 5),
    (
        VALVE,
        "h p1 0 control 1 - ; ; busy 1, reply -\nh p1 1 control 2 - ; ; busy 0, reply -\n",
        1,
        5,
    ),
    // Listed: a task that suspends isn't listed, one that doesn't is, or a process is listed twice.
    (ECHO, "h p0 0 command s 78 ; ; data plain 78\n", 0, 6),
    (
        ECHO,
        "s p0 0\nh p0 0 command - 78 ; ; data plain 78\n",
        1,
        6,
    ),
    (ECHO, "s p0 0\ns p0 1\n", 1, 6),
    // Resumed: nobody is listed, or the queue was found busy.
    (ECHO, "r p0 0 0\n", 0, 7),
    (ECHO, "s p0 0\nr p0 0 1099511627776\n", 1, 7),
    // Ready: an event that wasn't selected is handled, or one that was is late.
    (ECHO, "h e 0 input 5 ; ;\n", 0, 8),
    (STREAM, "l e 0 input 0\n", 0, 8),
    // Jobs: another result, and one that is late while the driver runs.
    (
        DIGEST,
        "h p0 0 command - 000161 ; ; async 0 0 1 61\nh w0 0 done 0 62 ; ; data plain 62\n",
        1,
        9,
    ),
    (
        DIGEST,
        "h p0 0 command - 000161 ; ; async 0 0 1 61\nl w0 0 done 0 61\n",
        1,
        9,
    ),
    // End: the port isn't closed, and a job isn't told done.
    (ECHO, "h p0 0 command - 61 ; ; data plain 61\n", 1, 10),
    (
        DIGEST,
        "h p0 0 command - 000161 ; ; async 0 0 1 61\nh p0 1 close ; ;\nm closed\n",
        3,
        10,
    ),
];

/// A journal of two processes whose ports have these texts.
fn journal_of(alloc: Global, ports: &[(&str, &str)]) -> Result<String, Fail> {
    let mut text = String::from_str(alloc, "journal 1\nprocesses a b\n")?;
    for (line, rows) in ports {
        text.push_str(line)?;
        text.push_str(rows)?;
        text.push_str("end\n")?;
    }
    Ok(text)
}

/// Whether a replay of the journal with these ports tells this.
fn are_judged(alloc: Global, ports: &[(&str, &str)], verdict: Verdict) -> Result<bool, Fail> {
    let text = journal_of(alloc, ports)?;
    Ok(is_judged(alloc, text.as_bytes(), verdict))
}

#[test]
fn histories_that_keep_the_laws_are_legal(rt: HostRuntime) -> Result<(), Fail> {
    for (line, rows) in LEGAL.as_slice() {
        let ports = [(*line, *rows)];
        let wanted = Verdict::Legal;
        assert!(rt; are_judged(rt.alloc(), &ports, wanted)?, "{line}{rows}");
    }
    Ok(())
}

#[test]
fn each_law_is_told_at_the_first_row_that_breaks_it(rt: HostRuntime) -> Result<(), Fail> {
    for (line, rows, row, law) in ILLEGAL.as_slice() {
        let ports = [(*line, *rows)];
        let wanted = Verdict::Illegal {
            port: 0,
            row: *row,
            law: *law,
        };
        assert!(rt; are_judged(rt.alloc(), &ports, wanted)?, "{line}{rows}");
    }
    Ok(())
}

#[test]
fn the_first_port_that_breaks_a_law_is_told(rt: HostRuntime) -> Result<(), Fail> {
    let (line, rows) = *LEGAL.as_slice().first().ok_or("no legal history")?;
    let (other, broken, row, law) = *ILLEGAL.as_slice().get(4).ok_or("no such history")?;
    let ports = [(line, rows), (other, broken), (ECHO, "m free\n")];
    let wanted = Verdict::Illegal { port: 1, row, law };
    assert!(rt; are_judged(rt.alloc(), &ports, wanted)?);
    Ok(())
}
