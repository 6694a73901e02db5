//! Scripts beside the texts that they are reported with. What a row says is so for every schedule: its processes wait for each other by replies and by data.

use crate::runs::{is_so, run_script};
use std::alloc::Global;
use std::process::Abort;
use std::sync::Wait;
use std::test::Fail;
use std::thread::Threads;

/// Scripts, and what each may report: a single text but where it isn't said which of two processes is first.
pub const RUNS: [(&str, &[&str]); 25] = [
    // Nothing is declared.
    ("", &["report processes=0 ports=0\n"]),
    // A process with no step.
    (
        "process a\n",
        &[
            "report processes=1 ports=0\n\
             process a commands=0 dropped=0 suspended=0 data=0 sha256=e3b0c44298fc1c149afbf4c8996fb92427ae41e4649b934ca495991b7852b855\n",
        ],
    ),
    // The end of the owner closes the port.
    (
        "process a\n\
         port p a echo\n",
        &[
            "report processes=1 ports=1\n\
             port p driver=echo commands=0 late=0 bytes=0 end=normal\n\
             process a commands=0 dropped=0 suspended=0 data=0 sha256=e3b0c44298fc1c149afbf4c8996fb92427ae41e4649b934ca495991b7852b855\n",
        ],
    ),
    // A command and a close.
    (
        "process a\n\
         port p a echo\n\
         a command p \"abc\"\n\
         a close p\n",
        &[
            "report processes=1 ports=1\n\
             port p driver=echo commands=1 late=0 bytes=3 end=normal\n\
             process a commands=1 dropped=0 suspended=0 data=1 sha256=ba7816bf8f01cfea414140de5dae2223b00361a396177a9cb410ff61f20015ad\n",
        ],
    ),
    // Data that comes before the end of the owner.
    (
        "process a\n\
         port p a echo\n\
         a command p [97, \"b\"]\n\
         a command p \"c\"\n",
        &[
            "report processes=1 ports=1\n\
             port p driver=echo commands=2 late=0 bytes=3 end=normal\n\
             process a commands=2 dropped=0 suspended=0 data=2 sha256=ba7816bf8f01cfea414140de5dae2223b00361a396177a9cb410ff61f20015ad\n",
        ],
    ),
    // A process waits for bytes.
    (
        "process a\n\
         port p a echo\n\
         a command p \"abc\"\n\
         a command p \"def\"\n\
         a bytes p 6\n\
         a close p\n",
        &[
            "report processes=1 ports=1\n\
             port p driver=echo commands=2 late=0 bytes=6 end=normal\n\
             process a commands=2 dropped=0 suspended=0 data=2 sha256=bef57ec7f53a6d40beb640a780a639c83bc29ac8a9816f1fc6c5c6dcd93c4721\n",
        ],
    ),
    // A control waits for its reply behind a close, so that the command finds the port closed.
    (
        "process a\n\
         port p a echo\n\
         a close p\n\
         a control p 1 \"x\"\n\
         a command p \"y\"\n",
        &[
            "report processes=1 ports=1\n\
             port p driver=echo commands=0 late=0 bytes=0 end=normal\n\
             process a commands=0 dropped=0 suspended=0 data=0 sha256=e3b0c44298fc1c149afbf4c8996fb92427ae41e4649b934ca495991b7852b855\n",
        ],
    ),
    // Two processes with three commands each.
    (
        "process a\n\
         process b\n\
         port p a echo\n\
         a command p \"x\"\n\
         b command p \"x\"\n\
         a command p \"x\"\n\
         b command p \"x\"\n\
         a command p \"x\"\n\
         b command p \"x\"\n\
         a expect p 6\n",
        &[
            "report processes=2 ports=1\n\
             port p driver=echo commands=6 late=0 bytes=6 end=normal\n\
             process a commands=3 dropped=0 suspended=0 data=6 sha256=b7fb217694ae2d305e766608d250f797daa984e4ac4b5fa638a729be352f2fcd\n\
             process b commands=3 dropped=0 suspended=0 data=0 sha256=e3b0c44298fc1c149afbf4c8996fb92427ae41e4649b934ca495991b7852b855\n",
        ],
    ),
    // The owner hands its port on.
    (
        "process a\n\
         process b\n\
         port p a echo\n\
         a connect p b\n\
         a command p \"x\"\n\
         b expect p 1\n",
        &[
            "report processes=2 ports=1\n\
             port p driver=echo commands=1 late=0 bytes=1 end=normal\n\
             process a commands=1 dropped=0 suspended=0 data=0 sha256=e3b0c44298fc1c149afbf4c8996fb92427ae41e4649b934ca495991b7852b855\n\
             process b commands=0 dropped=0 suspended=0 data=1 sha256=2d711642b726b04401627ca9fbac32f5c8530fb1903cc4db02258717921a4881\n",
        ],
    ),
    // The owner form of another process is a bad signal.
    (
        "process a\n\
         process b\n\
         port p a echo\n\
         port q a echo\n\
         b send p \"x\"\n\
         b control p 9 \"\"\n\
         b command q \"go\"\n\
         a expect q 1\n",
        &[
            "report processes=2 ports=2\n\
             port p driver=echo commands=0 late=0 bytes=0 end=normal\n\
             port q driver=echo commands=1 late=0 bytes=2 end=normal\n\
             process a commands=0 dropped=0 suspended=0 data=1 sha256=4cd0e21a9a0795a14ec9aa5f0e7d1abff0492565770e43eafdf1e3e8afed1f33\n\
             process b commands=2 dropped=0 suspended=0 data=0 sha256=e3b0c44298fc1c149afbf4c8996fb92427ae41e4649b934ca495991b7852b855\n",
        ],
    ),
    // The owner forms of a command and of a close, of the owner itself.
    (
        "process a\n\
         port p a echo\n\
         a send p \"abc\"\n\
         a sendclose p\n",
        &[
            "report processes=1 ports=1\n\
             port p driver=echo commands=1 late=0 bytes=3 end=normal\n\
             process a commands=1 dropped=0 suspended=0 data=1 sha256=ba7816bf8f01cfea414140de5dae2223b00361a396177a9cb410ff61f20015ad\n",
        ],
    ),
    // The owner hands its port on by the owner form; then the owner form of the new owner is a command.
    (
        "process a\n\
         process b\n\
         port p a echo\n\
         port q b echo\n\
         a sendconnect p b\n\
         a control p 1 \"\"\n\
         a command q \"go\"\n\
         b expect q 1\n\
         b send p \"x\"\n\
         b expect p 1\n",
        &[
            "report processes=2 ports=2\n\
             port p driver=echo commands=1 late=0 bytes=1 end=normal\n\
             port q driver=echo commands=1 late=0 bytes=2 end=normal\n\
             process a commands=1 dropped=0 suspended=0 data=0 sha256=e3b0c44298fc1c149afbf4c8996fb92427ae41e4649b934ca495991b7852b855\n\
             process b commands=1 dropped=0 suspended=0 data=2 sha256=3fc515a8191466936e867c207ab4bb9cde2576f1b3c04fe1b344c62b0942e144\n",
        ],
    ),
    // An exit signal closes the port with its reason.
    (
        "process a\n\
         port p a echo\n\
         a exit p crash\n",
        &[
            "report processes=1 ports=1\n\
             port p driver=echo commands=0 late=0 bytes=0 end=crash\n\
             process a commands=0 dropped=0 suspended=0 data=0 sha256=e3b0c44298fc1c149afbf4c8996fb92427ae41e4649b934ca495991b7852b855\n",
        ],
    ),
    // A kill is told as killed.
    (
        "process a\n\
         port p a echo\n\
         a command p \"x\"\n\
         a die kill\n",
        &[
            "report processes=1 ports=1\n\
             port p driver=echo commands=1 late=0 bytes=1 end=killed\n\
             process a commands=1 dropped=0 suspended=0 data=1 sha256=2d711642b726b04401627ca9fbac32f5c8530fb1903cc4db02258717921a4881\n",
        ],
    ),
    // Links, monitors and the exit signal of another process leave the port open.
    (
        "process a\n\
         process b\n\
         port p a echo\n\
         port q a echo\n\
         b link p\n\
         b monitor p\n\
         b demonitor p\n\
         b unlink p\n\
         b exit p normal\n\
         b control p 1 \"z\"\n\
         b command q \"go\"\n\
         a expect q 1\n\
         a command p \"x\"\n\
         a close p\n",
        &[
            "report processes=2 ports=2\n\
             port p driver=echo commands=1 late=0 bytes=1 end=normal\n\
             port q driver=echo commands=1 late=0 bytes=2 end=normal\n\
             process a commands=1 dropped=0 suspended=0 data=2 sha256=3fc515a8191466936e867c207ab4bb9cde2576f1b3c04fe1b344c62b0942e144\n\
             process b commands=1 dropped=0 suspended=0 data=0 sha256=e3b0c44298fc1c149afbf4c8996fb92427ae41e4649b934ca495991b7852b855\n",
        ],
    ),
    // A tally answers what it counted, which is no data.
    (
        "process a\n\
         port p a tally\n\
         a command p \"12345\"\n\
         a control p 1 \"\"\n\
         a call p 1 {x, 1}\n",
        &[
            "report processes=1 ports=1\n\
             port p driver=tally commands=1 late=0 bytes=5 end=normal\n\
             process a commands=1 dropped=0 suspended=0 data=0 sha256=e3b0c44298fc1c149afbf4c8996fb92427ae41e4649b934ca495991b7852b855\n",
        ],
    ),
    // A store sends its queue where it is closed.
    (
        "process b\n\
         port q b store\n\
         b command q \"ab\"\n\
         b command q \"c\"\n\
         b close q\n",
        &[
            "report processes=1 ports=1\n\
             port q driver=store commands=2 late=0 bytes=3 end=normal\n\
             process b commands=2 dropped=0 suspended=0 data=1 sha256=ba7816bf8f01cfea414140de5dae2223b00361a396177a9cb410ff61f20015ad\n",
        ],
    ),
    // A busy port takes no command: one is dropped, and none that is forced is supported.
    (
        "process a\n\
         port p a valve\n\
         a control p 1 \"\"\n\
         a control p 9 \"\"\n\
         a command p \"x\" force\n\
         a command p \"y\" nosuspend\n\
         a command p \"z\" force nosuspend\n",
        &[
            "report processes=1 ports=1\n\
             port p driver=valve commands=0 late=0 bytes=0 end=normal\n\
             process a commands=0 dropped=1 suspended=0 data=0 sha256=e3b0c44298fc1c149afbf4c8996fb92427ae41e4649b934ca495991b7852b855\n",
        ],
    ),
    // A busy port whose driver allows it takes a forced command.
    (
        "process a\n\
         port p a valve_soft\n\
         a control p 1 \"\"\n\
         a control p 9 \"\"\n\
         a command p \"x\" nosuspend\n\
         a command p \"y\" force\n",
        &[
            "report processes=1 ports=1\n\
             port p driver=valve_soft commands=1 late=0 bytes=1 end=normal\n\
             process a commands=1 dropped=1 suspended=0 data=1 sha256=a1fce4363854ff888cff4b8e7875d600c2682390412a8cf79b37d0b11148b0fa\n",
        ],
    ),
    // A process may be suspended by a busy port, until another frees it.
    (
        "process a\n\
         process b\n\
         port p a valve\n\
         port q b echo\n\
         a control p 1 \"\"\n\
         a control p 9 \"\"\n\
         a command q \"go\"\n\
         b expect q 1\n\
         b control p 2 \"\"\n\
         a command p \"x\"\n",
        &[
            "report processes=2 ports=2\n\
             port p driver=valve commands=1 late=0 bytes=1 end=normal\n\
             port q driver=echo commands=1 late=0 bytes=2 end=normal\n\
             process a commands=2 dropped=0 suspended=1 data=1 sha256=2d711642b726b04401627ca9fbac32f5c8530fb1903cc4db02258717921a4881\n\
             process b commands=0 dropped=0 suspended=0 data=1 sha256=4cd0e21a9a0795a14ec9aa5f0e7d1abff0492565770e43eafdf1e3e8afed1f33\n",
            "report processes=2 ports=2\n\
             port p driver=valve commands=1 late=0 bytes=1 end=normal\n\
             port q driver=echo commands=1 late=0 bytes=2 end=normal\n\
             process a commands=2 dropped=0 suspended=0 data=1 sha256=2d711642b726b04401627ca9fbac32f5c8530fb1903cc4db02258717921a4881\n\
             process b commands=0 dropped=0 suspended=0 data=1 sha256=4cd0e21a9a0795a14ec9aa5f0e7d1abff0492565770e43eafdf1e3e8afed1f33\n",
        ],
    ),
    // The jobs of one key come in their order.
    (
        "process a\n\
         port p a digest\n\
         a command p \"\\x01\\x01abc\"\n\
         a command p \"\\x01\\x02abc\"\n\
         a command p \"\\x01\\x03abc\"\n\
         a expect p 3\n",
        &[
            "report processes=1 ports=1\n\
             port p driver=digest commands=3 late=0 bytes=15 end=normal\n\
             process a commands=3 dropped=0 suspended=0 data=3 sha256=bd781e2ee535e5ff40154ea7cf7c63c0bd84e4fa2da24364d77cded332c4f423\n",
        ],
    ),
    // The jobs of two workers.
    (
        "process a\n\
         port p a digest\n\
         a command p \"\\x00\\x01aa\"\n\
         a command p \"\\x01\\x01aa\"\n\
         a command p \"\\x00\\x01aa\"\n\
         a command p \"\\x01\\x01aa\"\n\
         a expect p 4\n",
        &[
            "report processes=1 ports=1\n\
             port p driver=digest commands=4 late=0 bytes=16 end=normal\n\
             process a commands=4 dropped=0 suspended=0 data=4 sha256=1f3ce40415a2081fa3eee75fc39fff8e56c22270d1a978a7249b592dcebd20b4\n",
        ],
    ),
    // A command that is no job fails the port.
    (
        "process a\n\
         port p a digest\n\
         a command p \"z\"\n",
        &[
            "report processes=1 ports=1\n\
             port p driver=digest commands=1 late=0 bytes=1 end=einval\n\
             process a commands=1 dropped=0 suspended=0 data=0 sha256=e3b0c44298fc1c149afbf4c8996fb92427ae41e4649b934ca495991b7852b855\n",
        ],
    ),
    // A file is sent in pieces.
    (
        "process a\n\
         port p a echo msgq off\n\
         a file p 2 \"five\"\n\
         a bytes p 5\n",
        &[
            "report processes=1 ports=1\n\
             port p driver=echo commands=3 late=0 bytes=5 end=normal\n\
             process a commands=3 dropped=0 suspended=0 data=3 sha256=36bbe50ed96841d10443bcb670d6554f0a34b761be67ec9c4a8ad2c0c44ca42c\n",
        ],
    ),
    // Two programs: one answers what it is given, and one ends.
    (
        "process a\n\
         port c a spawn run \"first\"\n\
         port d a spawn run \"second\" line 80 exit_status\n\
         a command c \"abc\"\n\
         a expect c 1\n\
         a expect d 1\n",
        &[
            "report processes=1 ports=2\n\
             port c driver=spawn commands=1 late=0 bytes=3 end=normal\n\
             port d driver=spawn commands=0 late=0 bytes=0 end=normal\n\
             process a commands=1 dropped=0 suspended=0 data=2 sha256=0e37f529a0722e34c16529dec5966bb3421a8cd78497c2cad961c69e3dd163de\n",
        ],
    ),
];

/// What a run of this script writes under so many schedulers.
fn written_by<R: Sync + Threads + Wait>(
    rt: &R,
    alloc: Global,
    script: &[u8],
    schedulers: &str,
) -> Result<String, Fail> {
    let ran = run_script(rt, alloc, &["run", "s", schedulers], script)?;
    ran.text(alloc)
}

/// Whether the text is one of these.
fn is_one_of(text: &str, wanted: &[&str]) -> bool {
    for each in wanted {
        if *each == text {
            return true;
        }
    }
    false
}

/// A script with what it is reported with under so many schedulers, if that is none of these texts, and nothing otherwise.
fn wrong_report<R: Sync + Threads + Wait>(
    rt: &R,
    alloc: Global,
    script: &str,
    schedulers: &str,
    wanted: &[&str],
) -> Result<String, Fail> {
    let written = written_by(rt, alloc, script.as_bytes(), schedulers)?;
    if is_one_of(written.as_str(), wanted) {
        return Ok(String::new(alloc));
    }
    let wrong = format!(in alloc; "{script}reports under {schedulers}:\n{written}")?;
    Ok(wrong)
}

/// Ends the test where one of the scripts is reported otherwise under so many schedulers.
fn are_reported<R: Abort + Sync + Threads + Wait>(
    rt: &R,
    alloc: Global,
    schedulers: &str,
) -> Result<(), Fail> {
    for (script, wanted) in RUNS.as_slice() {
        let wrong = wrong_report(rt, alloc, script, schedulers, wanted)?;
        is_so(rt, wrong.is_empty(), wrong.as_str());
    }
    Ok(())
}

#[test]
fn scripts_are_reported_under_any_number_of_schedulers(rt: HostRuntime) -> Result<(), Fail> {
    for schedulers in &["1", "2", "4", "16"] {
        are_reported(&rt, rt.alloc(), schedulers)?;
    }
    Ok(())
}

/// A script with a command of so many bytes.
fn commanding(alloc: Global, count: usize) -> Result<String, Fail> {
    let mut script = String::from_str(alloc, "process a\nport p a echo msgq off\na command p \"")?;
    for _ in 0..count {
        script.push('x')?;
    }
    script.push_str("\"\n")?;
    Ok(script)
}

/// What a run of a script with a command of so many bytes writes.
fn commanded<R: Sync + Threads + Wait>(
    rt: &R,
    alloc: Global,
    count: usize,
) -> Result<String, Fail> {
    let script = commanding(alloc, count)?;
    written_by(rt, alloc, script.as_bytes(), "2")
}

/// The report of a command of 262,143 bytes.
const LONG_REPORT: &str = "report processes=1 ports=1\n\
     port p driver=echo commands=1 late=0 bytes=262143 end=normal\n\
     process a commands=1 dropped=0 suspended=0 data=1 sha256=69dbf0273ec892997c5c9ab8d595c8ce79d7656db64a88a0c38304de37f5f2d8\n";

#[test]
fn a_command_has_at_most_262143_bytes(rt: HostRuntime) -> Result<(), Fail> {
    let written = commanded(&rt, rt.alloc(), 262_143)?;
    is_so(&rt, written.as_str() == LONG_REPORT, written.as_str());
    let refused = commanded(&rt, rt.alloc(), 262_144)?;
    is_so(&rt, refused.is_empty(), refused.as_str());
    Ok(())
}
