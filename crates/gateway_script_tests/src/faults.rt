use crate::shown::{first_wrong, script_of};
use gateway_script::{ScriptFault, each_line_says_what_it_spells};
use std::test::Fail;

/// A process, two ports of it, a program and an echo, and what is written.
const HEAD: &str = "process a\nport p a spawn\nport q a echo\nsave a p \"s\"\njournal \"j\"\n";

/// Bad lines, behind the head. Most have another fault too, which is greater.
const BAD: [(&str, &str); 56] = [
    (" ", "BadLine { line: 6 }"),
    ("process", "BadLine { line: 6 }"),
    ("process port", "BadLine { line: 6 }"),
    ("process a ", "BadLine { line: 6 }"),
    ("process a\t", "BadLine { line: 6 }"),
    ("port save a echo", "BadLine { line: 6 }"),
    ("port r x", "BadLine { line: 6 }"),
    ("port r x echo ", "BadLine { line: 6 }"),
    ("port r x echo run \"cat\"", "BadLine { line: 6 }"),
    ("port r x echo stream", "BadLine { line: 6 }"),
    ("port r x echo packet 1", "BadLine { line: 6 }"),
    ("port r x echo line 1", "BadLine { line: 6 }"),
    ("port r x echo eof", "BadLine { line: 6 }"),
    ("port r x echo exit_status", "BadLine { line: 6 }"),
    ("port r x echo msgq off busy 1 2", "BadLine { line: 6 }"),
    ("port r x echo msgq 0 2", "BadLine { line: 6 }"),
    ("port r x echo msgq 1 1073741825", "BadLine { line: 6 }"),
    ("port r x echo msgq 1", "BadLine { line: 6 }"),
    ("port r x echo msgq off off", "BadLine { line: 6 }"),
    ("port r x spawn busy 1 0", "BadLine { line: 6 }"),
    ("port r x spawn busy off", "BadLine { line: 6 }"),
    ("port r x spawn packet 3", "BadLine { line: 6 }"),
    ("port r x spawn packet 1 line 0", "BadLine { line: 6 }"),
    ("port r x spawn line 262144", "BadLine { line: 6 }"),
    ("port r x spawn eof eof run cat", "BadLine { line: 6 }"),
    ("port r x spawn run \"cat\"eof", "BadLine { line: 6 }"),
    ("port r x spawn eof nothing", "BadLine { line: 6 }"),
    ("journal j", "BadLine { line: 6 }"),
    ("journal \"j\" \"k\"", "BadLine { line: 6 }"),
    ("journal \"\\xff\"", "BadLine { line: 6 }"),
    ("save x p \"\\xc3\"", "BadLine { line: 6 }"),
    ("save x \"t\"", "BadLine { line: 6 }"),
    ("save a p \"t", "BadLine { line: 6 }"),
    ("x command p 7", "BadLine { line: 6 }"),
    ("x command p \"\" nosuspend force", "BadLine { line: 6 }"),
    ("x command p \"\" force force", "BadLine { line: 6 }"),
    ("x command p \"\"force", "BadLine { line: 6 }"),
    ("x command p \"\" force ", "BadLine { line: 6 }"),
    ("x command p \"\" forced", "BadLine { line: 6 }"),
    ("x file p 0 \"f\"", "BadLine { line: 6 }"),
    ("x file p 262144 \"f\"", "BadLine { line: 6 }"),
    ("x file p 1 \"\\x80\"", "BadLine { line: 6 }"),
    ("x file p 1 \"f\" nosuspend force", "BadLine { line: 6 }"),
    ("x send p \"\" force", "BadLine { line: 6 }"),
    ("x control p 4294967296 \"\"", "BadLine { line: 6 }"),
    ("x call p 1 {", "BadLine { line: 6 }"),
    ("x close p \"\"", "BadLine { line: 6 }"),
    ("x connect p", "BadLine { line: 6 }"),
    ("x expect p", "BadLine { line: 6 }"),
    ("x expect p 12345678901", "BadLine { line: 6 }"),
    ("x expect p -1", "BadLine { line: 6 }"),
    ("x bytes p 1 2", "BadLine { line: 6 }"),
    ("x die", "BadLine { line: 6 }"),
    ("x forget p", "BadLine { line: 6 }"),
    ("a die x\na close r", "BadLine { line: 7 }"),
    ("a monitor q\na demonitor p", "BadLine { line: 7 }"),
];

#[test]
fn tells_a_bad_line_before_every_other_fault(rt: HostRuntime) -> Result<(), Fail> {
    let wrong = first_wrong(rt.alloc(), HEAD, "", BAD.as_slice())?;
    assert_eq!(rt; wrong.as_str(), "");
    Ok(())
}

/// Other faults, behind the head.
const OTHERS: [(&str, &str); 27] = [
    ("port a x spawn eof eof", "UnknownName { line: 6 }"),
    ("port r p echo", "UnknownName { line: 6 }"),
    ("save x p \"j\"", "UnknownName { line: 6 }"),
    ("save p p \"j\"", "UnknownName { line: 6 }"),
    ("save a a \"j\"", "UnknownName { line: 6 }"),
    ("x close p", "UnknownName { line: 6 }"),
    ("a close a", "UnknownName { line: 6 }"),
    ("a demonitor r", "UnknownName { line: 6 }"),
    ("a connect p q", "UnknownName { line: 6 }"),
    ("a sendconnect p b\nprocess b", "UnknownName { line: 6 }"),
    ("process p", "Repeated { line: 6 }"),
    ("process a", "Repeated { line: 6 }"),
    ("port a a echo", "Repeated { line: 6 }"),
    ("port r a echo msgq 1 2 msgq off", "Repeated { line: 6 }"),
    (
        "port r a spawn run \"x\" eof run \"x\"",
        "Repeated { line: 6 }",
    ),
    ("port r a spawn stream line 7", "Repeated { line: 6 }"),
    ("port r a spawn packet 1 packet 1", "Repeated { line: 6 }"),
    ("port r a spawn eof eof", "Repeated { line: 6 }"),
    (
        "port r a spawn exit_status eof exit_status",
        "Repeated { line: 6 }",
    ),
    ("port r a spawn busy 1 2 busy 1 2", "Repeated { line: 6 }"),
    ("journal \"k\"", "Repeated { line: 6 }"),
    ("journal \"s\"", "Repeated { line: 6 }"),
    ("save a p \"t\"", "Repeated { line: 6 }"),
    ("save a q \"s\"", "Repeated { line: 6 }"),
    ("save a q \"j\"", "Repeated { line: 6 }"),
    ("save a q \"\\x73\"", "Repeated { line: 6 }"),
    ("process a\n\x07", "Repeated { line: 6 }"),
];

#[test]
fn tells_the_least_fault_of_the_first_faulty_line(rt: HostRuntime) -> Result<(), Fail> {
    let wrong = first_wrong(rt.alloc(), HEAD, "", OTHERS.as_slice())?;
    assert_eq!(rt; wrong.as_str(), "");
    let wrong = first_wrong(
        rt.alloc(),
        "",
        "",
        [("a close p", "UnknownName { line: 1 }")].as_slice(),
    )?;
    assert_eq!(rt; wrong.as_str(), "");
    Ok(())
}

#[test]
fn a_script_has_32_processes_and_32_ports(rt: HostRuntime) -> Result<(), Fail> {
    let alloc = rt.alloc();
    let mut text = String::new(alloc);
    for number in 0..32 {
        write!(text, "process a{number}\n")?;
    }
    let wrong = first_wrong(
        alloc,
        text.as_str(),
        "",
        [
            ("process b", "Limit { line: 33, which: 1 }"),
            ("process a0", "Repeated { line: 33 }"),
        ]
        .as_slice(),
    )?;
    assert_eq!(rt; wrong.as_str(), "");
    for number in 0..32 {
        write!(text, "port p{number} a0 echo\n")?;
    }
    let wrong = first_wrong(
        alloc,
        text.as_str(),
        "",
        [
            ("port q a0 echo", "Limit { line: 65, which: 2 }"),
            ("port p7 a0 echo", "Repeated { line: 65 }"),
        ]
        .as_slice(),
    )?;
    assert_eq!(rt; wrong.as_str(), "");
    Ok(())
}

#[test]
fn a_script_has_at_most_131072_steps(rt: HostRuntime) -> Result<(), Fail> {
    let alloc = rt.alloc();
    let mut text = String::from_str(alloc, "process a\nport p a echo\n")?;
    for _ in 0..131_072 {
        text.push_str("a link p\n")?;
    }
    assert!(rt; script_of(alloc, text.as_str()).is_ok());
    text.push_str("a die x")?;
    let fault = script_of(alloc, text.as_str()).err();
    let wanted = ScriptFault::Limit {
        line: 131_075,
        which: 3,
    };
    assert_eq!(rt; fault, Some(wanted));
    each_line_says_what_it_spells();
    Ok(())
}
