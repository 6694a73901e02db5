use crate::checks::{is_right, none_is_wrong};
use port_terms::{IoList, Term, encode, flatten, term_depth};
use script_text::{
    PartFault, read_io_bytes, read_io_list, read_number, read_term, read_text, read_text_bytes,
    read_text_content,
};
use std::alloc::{AllocError, Global};
use std::borrow::CowSlice;

/// The NUMBER in front and the length of what stands behind it.
fn number_of(text: &str) -> Option<(u64, usize)> {
    let (number, rest) = read_number(text.as_bytes())?;
    Some((number, rest.len()))
}

/// Whether the TEXT in front has these bytes, with so many bytes behind it.
fn is_text(alloc: Global, text: &[u8], wanted: &[u8], behind: usize) -> bool {
    matches!(
        read_text(alloc, text),
        Ok((content, rest)) if content.as_slice() == wanted && rest.len() == behind
    )
}

/// Whether it has them where it is read as a script's names of files are.
fn is_text_of_bytes(alloc: Global, text: &[u8], wanted: &[u8], behind: usize) -> bool {
    matches!(
        read_text_bytes(alloc, text),
        Ok((content, rest)) if content.as_slice() == wanted && rest.len() == behind
    )
}

/// The bytes of the TEXT in front, whether they are borrowed or owned, with the number of bytes behind it.
fn shown_content(alloc: Global, text: &str) -> Result<String, AllocError> {
    match read_text_content(alloc, text.as_bytes()) {
        Ok((content, rest)) => shown_bytes_of(alloc, &content, rest),
        Err(fault) => shown_fault(alloc, &fault),
    }
}

fn shown_bytes_of(
    alloc: Global,
    content: &CowSlice<'_, u8>,
    rest: &[u8],
) -> Result<String, AllocError> {
    match content {
        CowSlice::Borrowed(bytes) => shown_as(alloc, "borrowed", bytes, rest),
        CowSlice::Owned(bytes) => shown_as(alloc, "owned", bytes.as_slice(), rest),
    }
}

fn shown_as(alloc: Global, how: &str, bytes: &[u8], rest: &[u8]) -> Result<String, AllocError> {
    format!(in alloc; "{how} {bytes:?} {}", rest.len())
}

/// Why no TEXT is read, if none is.
fn text_fault(alloc: Global, text: &str) -> Option<PartFault> {
    read_text(alloc, text.as_bytes()).err()
}

fn text_bytes_fault(alloc: Global, text: &str) -> Option<PartFault> {
    read_text_bytes(alloc, text.as_bytes()).err()
}

fn is_io_list(alloc: Global, text: &str) -> bool {
    read_io_list(alloc, text.as_bytes()).is_ok()
}

fn is_term(alloc: Global, text: &str) -> bool {
    read_term(alloc, text.as_bytes()).is_ok()
}

/// Bytes that were read, with the number of those behind them.
fn shown(alloc: Global, bytes: &[u8], rest: &[u8]) -> Result<String, AllocError> {
    format!(in alloc; "{bytes:?} {}", rest.len())
}

fn shown_fault(alloc: Global, fault: &PartFault) -> Result<String, AllocError> {
    let text = match fault {
        PartFault::Bad => "bad",
        PartFault::NoMemory => "no memory",
    };
    String::from_str(alloc, text)
}

/// The bytes of the IOLIST in front, with what stands behind it.
fn shown_io_list(alloc: Global, text: &str) -> Result<String, AllocError> {
    match read_io_list(alloc, text.as_bytes()) {
        Ok((list, rest)) => shown_bytes(alloc, &list, rest),
        Err(fault) => shown_fault(alloc, &fault),
    }
}

/// The same where it is read as the data of a script is.
fn shown_io_bytes(alloc: Global, text: &str) -> Result<String, AllocError> {
    match read_io_bytes(alloc, text.as_bytes()) {
        Ok((content, rest)) => shown_lent(alloc, &content, rest),
        Err(fault) => shown_fault(alloc, &fault),
    }
}

fn shown_lent(
    alloc: Global,
    content: &CowSlice<'_, u8>,
    rest: &[u8],
) -> Result<String, AllocError> {
    match content {
        CowSlice::Borrowed(bytes) => shown(alloc, bytes, rest),
        CowSlice::Owned(bytes) => shown(alloc, bytes.as_slice(), rest),
    }
}

fn shown_bytes(alloc: Global, list: &IoList, rest: &[u8]) -> Result<String, AllocError> {
    match flatten(alloc, list) {
        Ok(bytes) => shown(alloc, bytes.as_slice(), rest),
        Err(_) => Err(AllocError),
    }
}

/// The external form of the TERM in front, with the number of bytes behind it.
fn shown_term(alloc: Global, text: &str) -> Result<String, AllocError> {
    match read_term(alloc, text.as_bytes()) {
        Ok((term, rest)) => shown_form(alloc, &term, rest),
        Err(fault) => shown_fault(alloc, &fault),
    }
}

fn shown_form(alloc: Global, term: &Term, rest: &[u8]) -> Result<String, AllocError> {
    if term_depth(term) > 64 {
        return String::from_str(alloc, "deep");
    }
    match encode(alloc, term) {
        Ok(bytes) => shown(alloc, bytes.as_slice(), rest),
        Err(_) => Err(AllocError),
    }
}

/// The place of the first text with another NUMBER in front, if there is one.
fn first_other_number(cases: &[(&str, Option<(u64, usize)>)]) -> Option<usize> {
    for (at, case) in cases.iter().enumerate() {
        let (text, wanted) = *case;
        if number_of(text) != wanted {
            return Some(at);
        }
    }
    None
}

/// Texts, and the NUMBER in front of each with the number of bytes behind it.
const NUMBERS: [(&str, Option<(u64, usize)>); 8] = [
    ("0", Some((0, 0))),
    ("0000000255,", Some((255, 1))),
    ("9999999999 x", Some((9_999_999_999, 2))),
    ("12345678901", None),
    ("", None),
    (" 1", None),
    ("-1", None),
    ("a", None),
];

#[test]
fn a_number_has_one_to_ten_digits(rt: HostRuntime) {
    none_is_wrong(&rt, first_other_number(&NUMBERS));
}

/// The place of the first text that has other bytes, if there is one.
fn first_other_text(alloc: Global, cases: &[(&[u8], &[u8], usize)]) -> Option<usize> {
    for (at, case) in cases.iter().enumerate() {
        let (text, wanted, behind) = *case;
        if !is_text(alloc, text, wanted, behind) || !is_text_of_bytes(alloc, text, wanted, behind) {
            return Some(at);
        }
    }
    None
}

/// The place of the first text that isn't refused, if there is one.
fn first_not_refused(alloc: Global, texts: &[&str]) -> Option<usize> {
    for (at, text) in texts.iter().enumerate() {
        if text_fault(alloc, text) != Some(PartFault::Bad)
            || text_bytes_fault(alloc, text) != Some(PartFault::Bad)
        {
            return Some(at);
        }
    }
    None
}

/// TEXTs, each with its bytes and the number of bytes behind it.
const TEXTS: [(&[u8], &[u8], usize); 3] = [
    (b"\"\"", b"", 0),
    (b"\"a #~\" force", b"a #~", 6),
    (
        b"\"\\n\\r\\t\\\\\\\"\\x00\\x7f\\xff\\x9a0\"\"",
        b"\n\r\t\\\"\x00\x7f\xff\x9a0",
        1,
    ),
];

const NO_TEXTS: [&str; 9] = [
    "",
    "a",
    "\"",
    "\"a",
    "\"\\\"",
    "\"\\q\"",
    "\"\\x1\"",
    "\"\\xFF\"",
    "\"\\xg0\"",
];

#[test]
fn a_text_has_its_escapes(rt: HostRuntime) {
    none_is_wrong(&rt, first_other_text(rt.alloc(), &TEXTS));
    none_is_wrong(&rt, first_not_refused(rt.alloc(), &NO_TEXTS));
}

/// The parts of a long text: what stands in front, what opens each level, what is in the last one, and what closes each.
type LongParts<'a> = [&'a str; 4];

/// A text of so many levels.
fn nested(alloc: Global, levels: usize, parts: LongParts<'_>) -> Result<String, AllocError> {
    let [head, open, inner, close] = parts;
    let mut text = String::from_str(alloc, head)?;
    text.push_str(open.repeat(alloc, levels)?.as_str())?;
    text.push_str(inner)?;
    text.push_str(close.repeat(alloc, levels)?.as_str())?;
    Ok(text)
}

/// Whether a TEXT of so many bytes is read.
fn reads_text_of(alloc: Global, len: usize) -> Option<bool> {
    match &nested(alloc, len, ["\"", "x", "\"", ""]) {
        Ok(text) => Some(text_fault(alloc, text.as_str()).is_none()),
        Err(_) => None,
    }
}

#[test]
fn a_text_has_at_most_262143_bytes(rt: HostRuntime) {
    is_right(&rt, reads_text_of(rt.alloc(), 262_143) == Some(true));
    is_right(&rt, reads_text_of(rt.alloc(), 262_144) == Some(false));
}

/// What is read of a text.
#[derive(Clone, Copy)]
enum ReadPart {
    IoList,
    IoBytes,
    Content,
    Term,
}

/// Whether a part that is read is shown so.
fn is_shown(alloc: Global, part: ReadPart, text: &str, wanted: &str) -> bool {
    let shown = match part {
        ReadPart::IoList => shown_io_list(alloc, text),
        ReadPart::IoBytes => shown_io_bytes(alloc, text),
        ReadPart::Content => shown_content(alloc, text),
        ReadPart::Term => shown_term(alloc, text),
    };
    matches!(&shown, Ok(shown) if shown.as_str() == wanted)
}

/// The place of the first text of which a part is shown otherwise, if there is one.
fn first_shown_otherwise(alloc: Global, part: ReadPart, cases: &[(&str, &str)]) -> Option<usize> {
    for (at, case) in cases.iter().enumerate() {
        let (text, wanted) = *case;
        if !is_shown(alloc, part, text, wanted) {
            return Some(at);
        }
    }
    None
}

/// Texts of IOLISTs, each with its bytes and the number of bytes behind it, or `bad` where it isn't an IOLIST.
const IO_LISTS: [(&str, &str); 16] = [
    ("\"abc\"", "[97, 98, 99] 0"),
    ("[97, \"b\", [\"c\"]] ", "[97, 98, 99] 1"),
    ("[]x", "[] 1"),
    ("[  ]", "[] 0"),
    ("[ 1 ,[ 2,003 ] ,\"\\n\",[] ]", "[1, 2, 3, 10] 0"),
    ("1", "bad"),
    ("[1,]", "bad"),
    ("[,1]", "bad"),
    ("[1 2]", "bad"),
    ("[1", "bad"),
    ("[255, 256]", "bad"),
    ("[00000000001]", "bad"),
    ("[-0]", "bad"),
    ("[a]", "bad"),
    ("{1}", "bad"),
    (" \"a\"", "bad"),
];

#[test]
fn an_io_list_is_read_from_left_to_right(rt: HostRuntime) {
    none_is_wrong(
        &rt,
        first_shown_otherwise(rt.alloc(), ReadPart::IoList, &IO_LISTS),
    );
    none_is_wrong(
        &rt,
        first_shown_otherwise(rt.alloc(), ReadPart::IoBytes, &IO_LISTS),
    );
}

/// TEXTs, each with how its bytes are lent and the number of bytes behind it, or `bad` where it isn't a TEXT.
const CONTENTS: [(&str, &str); 7] = [
    ("\"ab\" c", "borrowed [97, 98] 2"),
    ("\"\"", "borrowed [] 0"),
    ("\"a\\n\",", "owned [97, 10] 1"),
    ("\"\\\\\"", "owned [92] 0"),
    ("ab\"", "bad"),
    ("\"ab", "bad"),
    ("\"\\q\"", "bad"),
];

#[test]
fn only_a_text_without_escapes_is_borrowed(rt: HostRuntime) {
    none_is_wrong(
        &rt,
        first_shown_otherwise(rt.alloc(), ReadPart::Content, &CONTENTS),
    );
}

/// Texts of TERMs, each with its external form and the number of bytes behind it, or `bad` where it isn't a TERM.
const TERMS: [(&str, &str); 22] = [
    (
        "{1, \"ab\", -5}",
        "[131, 104, 3, 97, 1, 107, 0, 2, 97, 98, 98, 255, 255, 255, 251] 0",
    ),
    ("{}", "[131, 104, 0] 0"),
    ("[ ] ", "[131, 106] 1"),
    ("\"\"", "[131, 106] 0"),
    (
        "[a,b_1]",
        "[131, 108, 0, 0, 0, 2, 119, 1, 97, 119, 3, 98, 95, 49, 106] 0",
    ),
    (
        "process",
        "[131, 119, 7, 112, 114, 111, 99, 101, 115, 115] 0",
    ),
    ("<<  \"a\" >>", "[131, 109, 0, 0, 0, 1, 97] 0"),
    ("-0", "[131, 97, 0] 0"),
    ("007,", "[131, 97, 7] 1"),
    (
        "9223372036854775807",
        "[131, 110, 8, 0, 255, 255, 255, 255, 255, 255, 255, 127] 0",
    ),
    (
        "-9223372036854775808",
        "[131, 110, 8, 1, 0, 0, 0, 0, 0, 0, 0, 128] 0",
    ),
    ("9223372036854775808", "bad"),
    ("-9223372036854775809", "bad"),
    ("- 5", "bad"),
    ("-", "bad"),
    ("Abc", "bad"),
    ("abcdefghijklmnopq", "bad"),
    ("< <\"a\">>", "bad"),
    ("<<\"a\"> >", "bad"),
    ("<<1>>", "bad"),
    ("{1, 2]", "bad"),
    ("{1,}", "bad"),
];

#[test]
fn a_term_is_written_in_its_external_form(rt: HostRuntime) {
    none_is_wrong(
        &rt,
        first_shown_otherwise(rt.alloc(), ReadPart::Term, &TERMS),
    );
}

/// Whether a text is read as an IOLIST, and whether as a TERM.
fn reads(alloc: Global, levels: usize, parts: LongParts<'_>) -> Option<(bool, bool)> {
    match &nested(alloc, levels, parts) {
        Ok(text) => Some((
            is_io_list(alloc, text.as_str()),
            is_term(alloc, text.as_str()),
        )),
        Err(_) => None,
    }
}

/// A text of so many levels, and whether it is read as an IOLIST and as a TERM.
type LongCase = (usize, LongParts<'static>, (bool, bool));

/// The place of the first text that is read otherwise, if there is one.
fn first_read_otherwise(alloc: Global, cases: &[LongCase]) -> Option<usize> {
    for (at, case) in cases.iter().enumerate() {
        let (levels, parts, wanted) = *case;
        if reads(alloc, levels, parts) != Some(wanted) {
            return Some(at);
        }
    }
    None
}

/// Deep texts. The items of a TEXT in a TERM are one level deeper than the TEXT.
const DEEP_TEXTS: [LongCase; 7] = [
    (64, ["", "[", "", "]"], (true, true)),
    (65, ["", "[", "", "]"], (false, false)),
    (63, ["", "[", "7", "]"], (true, true)),
    (64, ["", "[", "7", "]"], (false, false)),
    (63, ["", "[", "\"\"", "]"], (true, true)),
    (63, ["", "{", "\"a\"", "}"], (false, false)),
    (63, ["", "[", "\"a\"", "]"], (true, false)),
];

#[test]
fn data_has_at_most_64_levels(rt: HostRuntime) {
    none_is_wrong(&rt, first_read_otherwise(rt.alloc(), &DEEP_TEXTS));
}

/// Lists of so many items and one more.
const LONG_LISTS: [LongCase; 2] = [
    (262_142, ["[", "1,", "1]", ""], (true, true)),
    (262_143, ["[", "1,", "1]", ""], (false, false)),
];

#[test]
fn a_list_has_at_most_262143_items(rt: HostRuntime) {
    none_is_wrong(&rt, first_read_otherwise(rt.alloc(), &LONG_LISTS));
}
