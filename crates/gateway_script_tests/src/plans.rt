use crate::shown::first_wrong;
use std::test::Fail;

/// Scripts that declare and name files.
const DECLARED: [(&str, &str); 14] = [
    ("", ""),
    ("\n#\n# a comment\n\n", ""),
    (
        "process a\nport p a echo\na command p \"abc\"\na close p\n",
        "1 process a;2 port p 0 echo;3 0 command 0 [97, 98, 99] false false;4 0 close 0;",
    ),
    (
        "process a\nport c a spawn run \"cat\" line 80\na file c 4096 \"in.txt\"\na expect c 12\nsave a c \"out.txt\"\n",
        "1 process a;2 port c 0 spawn run [99, 97, 116] line 80;5 save 0 0 \"out.txt\";3 0 file 0 4096 \"in.txt\" false false;4 0 expect 0 12;",
    ),
    ("process a\nport p a spawn", "1 process a;2 port p 0 spawn;"),
    (
        "process a\nport p a echo msgq 1 2",
        "1 process a;2 port p 0 echo msgq 1 2;",
    ),
    (
        "process a\nport p a echo msgq 9 2",
        "1 process a;2 port p 0 echo msgq 2 2;",
    ),
    (
        "process a\nport p a echo  msgq  off",
        "1 process a;2 port p 0 echo msgq off;",
    ),
    (
        "process a\nport p a spawn exit_status busy 1073741824 8 eof packet 02 msgq off run \"\\xff\"",
        "1 process a;2 port p 0 spawn msgq off run [255] packet 2 eof exit_status busy 8 8;",
    ),
    (
        "process a\nport p a spawn packet 1\nport q a spawn packet 4\nport r a spawn stream\nport s a spawn line 262143 run \"\"",
        "1 process a;2 port p 0 spawn packet 1;3 port q 0 spawn packet 4;4 port r 0 spawn;5 port s 0 spawn line 262143;",
    ),
    ("journal \"\"", "journal \"\";"),
    ("journal   \"\\xc3\\xa9\"", "journal \"é\";"),
    (
        "process a\nprocess b\nport p a echo\nsave a p \"x\"\nsave b p \"y\"\njournal \"z\"",
        "1 process a;2 process b;3 port p 0 echo;journal \"z\";4 save 0 0 \"x\";5 save 1 0 \"y\";",
    ),
    (
        "process a\nport p a echo\njournal \"x\"\na file p 1 \"x\"\nsave a p \"y\"\na file p 262143 \"y\" nosuspend",
        "1 process a;2 port p 0 echo;journal \"x\";5 save 0 0 \"y\";4 0 file 0 1 \"x\" false false;6 0 file 0 262143 \"y\" false true;",
    ),
];

#[test]
fn reads_declarations_and_options(rt: HostRuntime) -> Result<(), Fail> {
    let wrong = first_wrong(rt.alloc(), "", "", DECLARED.as_slice())?;
    assert_eq!(rt; wrong.as_str(), "");
    Ok(())
}

/// Two processes and a port of each.
const HEAD: &str = "process a\nprocess b\nport p a echo\nport q b tally\n";

/// What the head reads as.
const DECLARATIONS: &str = "1 process a;2 process b;3 port p 0 echo;4 port q 1 tally;";

/// Each step, behind the head.
const STEPS: [(&str, &str); 25] = [
    ("a command p []", "5 0 command 0 [] false false;"),
    (
        "a command q [1, \"b\", [ 255 ]]  force",
        "5 0 command 1 [1, 98, 255] true false;",
    ),
    (
        "b command p \"force\" nosuspend",
        "5 1 command 0 [102, 111, 114, 99, 101] false true;",
    ),
    (
        "b command p \"\" force  nosuspend",
        "5 1 command 0 [] true true;",
    ),
    (
        "a file p 7 \"f\" force nosuspend",
        "5 0 file 0 7 \"f\" true true;",
    ),
    ("a file q 007 \"\" force", "5 0 file 1 7 \"\" true false;"),
    ("a send p \"\\n\"", "5 0 send 0 [10];"),
    ("a send p [[], \"x\"]", "5 0 send 0 [120];"),
    (
        "a control p 4294967295 \"z\"",
        "5 0 control 0 4294967295 [122];",
    ),
    (
        "a call p 0 {1, \"ab\", -5}",
        "5 0 call 0 0 [131, 104, 3, 97, 1, 107, 0, 2, 97, 98, 98, 255, 255, 255, 251];",
    ),
    (
        "a call p 1 << \"\" >>",
        "5 0 call 0 1 [131, 109, 0, 0, 0, 0];",
    ),
    ("a close q", "5 0 close 1;"),
    ("a connect p b", "5 0 connect 0 1;"),
    ("a sendclose p", "5 0 sendclose 0;"),
    ("b sendconnect q a", "5 1 sendconnect 1 0;"),
    ("a link p\na unlink p", "5 0 link 0;6 0 unlink 0;"),
    (
        "a monitor p\nb monitor p\na monitor q\na demonitor q\na demonitor p",
        "5 0 monitor 0 0;6 1 monitor 0 0;7 0 monitor 1 1;8 0 demonitor 1 1;9 0 demonitor 0 0;",
    ),
    (
        "a monitor p\na monitor p\na demonitor p\na monitor p\na demonitor p",
        "5 0 monitor 0 0;6 0 monitor 0 1;7 0 demonitor 0 0;8 0 monitor 0 2;9 0 demonitor 0 1;",
    ),
    ("a exit p kill", "5 0 exit 0 kill;"),
    ("a expect p 0", "5 0 expect 0 0;"),
    ("a expect p 9999999999", "5 0 expect 0 9999999999;"),
    ("a bytes q 12", "5 0 bytes 1 12;"),
    ("a die bytes", "5 0 die bytes;"),
    ("a die x\nb close p", "5 0 die x;6 1 close 0;"),
    (
        "a command p \"force\"",
        "5 0 command 0 [102, 111, 114, 99, 101] false false;",
    ),
];

#[test]
fn reads_each_step(rt: HostRuntime) -> Result<(), Fail> {
    let wrong = first_wrong(rt.alloc(), HEAD, DECLARATIONS, STEPS.as_slice())?;
    assert_eq!(rt; wrong.as_str(), "");
    Ok(())
}
