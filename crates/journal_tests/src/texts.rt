use journal_text::{
    Book, JournalFault, PortReport, each_book_has_one_text, print_journal, read_journal,
};
use std::alloc::Global;
use std::test::Fail;

/// The journal of an echo port that handles one command and is closed.
const ECHO: &str = "journal 1
processes a
port p 0 echo msgq 4096 8192
h p0 0 command - 616263 ; ; data plain 616263
h p0 1 close ; ;
m closed
end
";

/// The journal of a valve whose owner is suspended until another process frees it.
const VALVE: &str = "journal 1
processes a b
port v 0 valve msgq off
h p1 0 control 1 - ; ; busy 1, reply -
m busy
s p0 0
h p1 1 control 2 - ; ; busy 0, reply -
m free
r p0 0 1
h p0 0 command s 78 ; ; data plain 78
end
";

/// A port of a program, with a row for each signal, answer and effect that no other journal here has.
const SPAWN: &str = "journal 1
processes a b
port c 1 spawn msgq off run 636174 line 80 eof nostatus busy 1 1073741824 events 4294967295 0
h p0 0 send f - ; ; eof, xstatus -2147483648, select 1 r 1, select 1 w 0, unuse 1, watch 1, reply badarg, fail eio
h p0 1 call 4294967295 00ff ; took 0, got 0a, again, end, failed, status 2147483647 ; data eol -, data noeol 0d, async 18446744073709551615 7 255 01
l p1 0 ownerclose
l p1 1 connect 1
l p1 2 ownerconnect 0
l p1 3 link
l p1 4 unlink
l p1 5 monitor 18446744073709551615
l p1 6 demonitor 0
l p1 7 exit kill
l p1 8 gone a_1
h e 0 input 5 ; ;
h e 1 output 5 ; ;
l e 2 dropped 5
h w4294967295 0 done 3 616263 ; ;
l t 0 close
end
port q 0 digest msgq 1 1
end
port r 0 spawn msgq 5 6 run - packet 4 noeof status busy 2 3 events 0 1
end
port s 0 spawn msgq off run - stream noeof nostatus busy 2 3 events 0 1
end
";

/// Whether the book is printed as this text.
fn is_printed_as(alloc: Global, book: &Book, text: &str) -> bool {
    matches!(&print_journal(alloc, book), Ok(again) if again.as_slice() == text.as_bytes())
}

/// Whether the text is a journal that is printed as it was read.
fn is_printed_again(alloc: Global, text: &str) -> bool {
    match read_journal(alloc, text.as_bytes()) {
        Ok(book) => is_printed_as(alloc, &book, text),
        Err(_) => false,
    }
}

#[test]
fn a_journal_is_printed_as_it_was_read(rt: HostRuntime) {
    each_book_has_one_text();
    for text in ["journal 1\nprocesses\n", ECHO, VALVE, SPAWN] {
        assert!(rt; is_printed_again(rt.alloc(), text), "{text}");
    }
}

/// Whether these are the ports of the journal of a valve, with all its rows.
fn are_of_valve(ports: &[PortReport]) -> bool {
    match ports {
        [port] => port.driver.as_str() == "valve" && port.journal.rows.as_slice().len() == 7,
        _ => false,
    }
}

#[test]
fn a_book_tells_its_names_and_ports(rt: HostRuntime) -> Result<(), Fail> {
    let book = read_journal(rt.alloc(), VALVE.as_bytes())?;
    assert!(rt; book.names().len() == 2);
    assert!(rt; are_of_valve(book.ports()));
    Ok(())
}

/// Whether the text is a journal.
pub fn is_journal(alloc: Global, text: &str) -> bool {
    read_journal(alloc, text.as_bytes()).is_ok()
}

/// Whether the text has its first bad line at this place.
pub fn is_bad_at(alloc: Global, text: &str, at: u64) -> bool {
    match read_journal(alloc, text.as_bytes()) {
        Ok(_) => false,
        Err(fault) => fault == JournalFault::NotAJournal { at },
    }
}

#[test]
fn a_cut_text_is_bad_where_it_was_cut(rt: HostRuntime) {
    for (text, at) in [
        ("", 0),
        ("journal 1", 0),
        ("journal 1\n", 10),
        ("journal 1\nprocesses a", 10),
        ("journal 1\nprocesses a\nport p 0 echo msgq off\n", 45),
        ("journal 1\nprocesses a\nport p 0 echo msgq off\nend", 45),
        (
            "journal 1\nprocesses a\nport p 0 echo msgq off\nend\n\n",
            49,
        ),
        (
            "journal 1\nprocesses a\nport p 0 echo msgq off\nend\nend\n",
            49,
        ),
    ] {
        assert!(rt; is_bad_at(rt.alloc(), text, at), "{text:?}");
    }
}
