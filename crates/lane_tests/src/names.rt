use crate::checks::{is_right, none_is_wrong};
use port_signal::{Items, Log, Reason, ReasonFault, reason};
use std::alloc::Global;

/// Whether a text is a name, and is given back.
fn reads_back(text: &str) -> bool {
    matches!(reason(text), Ok(name) if name.as_str() == text)
}

/// The place of the first text that is no name, or isn't given back, if there is one.
fn first_unread(texts: &[&str]) -> Option<usize> {
    for (at, text) in texts.iter().enumerate() {
        if !reads_back(text) {
            return Some(at);
        }
    }
    None
}

const NAMES: [&str; 5] = ["a", "normal", "z9", "a_1_b", "abcdefghijklmnop"];

#[test]
fn a_name_reads_back_as_its_text(rt: HostRuntime) {
    none_is_wrong(&rt, first_unread(&NAMES));
}

/// Why a text is no name, if it is none.
fn fault_of(text: &str) -> Option<ReasonFault> {
    Reason::of_bytes(text.as_bytes()).err()
}

/// The place of the first text that isn't at fault where it says, if there is one.
fn first_other_fault(texts: &[(&str, u64)]) -> Option<usize> {
    for (place, text) in texts.iter().enumerate() {
        let (text, at) = *text;
        if fault_of(text) != Some(ReasonFault::NotAName { at }) {
            return Some(place);
        }
    }
    None
}

/// Texts, and where each is at fault.
const FAULTS: [(&str, u64); 9] = [
    ("", 0),
    ("9a", 0),
    ("_a", 0),
    ("Normal", 0),
    ("norMal", 3),
    ("no-name-", 2),
    ("a b", 1),
    ("abcdefghijklmnopq", 16),
    ("abcdefghijklmnop-", 16),
];

#[test]
fn a_fault_tells_the_first_bad_place(rt: HostRuntime) {
    none_is_wrong(&rt, first_other_fault(&FAULTS));
}

/// Whether a name is one with what is the same as it.
fn is_one_with_itself(text: &str) -> bool {
    match &reason(text) {
        Ok(name) => name.is(&name.same()),
        Err(_) => false,
    }
}

/// Whether two texts are names, and not one.
fn are_two(first: &str, second: &str) -> bool {
    match (&reason(first), &reason(second)) {
        (Ok(first), Ok(second)) => !first.is(second),
        _ => false,
    }
}

#[test]
fn names_are_one_where_their_texts_are(rt: HostRuntime) {
    is_right(&rt, is_one_with_itself("normal"));
    is_right(&rt, are_two("normal", "norma"));
    is_right(&rt, are_two("normal", "normam"));
}

/// Three entries that a list gave back.
fn listed(alloc: Global) -> Option<Vec<u32>> {
    let entries = vec![in alloc; 1, 2, 3].ok()?;
    let items = Items::of_vec(entries);
    if items.as_slice() != [1, 2, 3].as_slice() {
        return None;
    }
    Some(items.into_vec())
}

/// Whether a log gives back its entries, also with one more.
fn logs(alloc: Global) -> bool {
    let Some(listed) = listed(alloc) else {
        return false;
    };
    let mut entries = Log::of_vec(listed).into_vec();
    if entries.push(4).is_err() {
        return false;
    }
    Log::of_vec(entries).as_slice() == [1, 2, 3, 4].as_slice()
}

/// Whether a new list and a new log have no entries.
fn are_empty(alloc: Global) -> bool {
    Items::<u32>::new(alloc).as_slice().is_empty() && Log::<u32>::new(alloc).as_slice().is_empty()
}

#[test]
fn lists_give_back_their_entries(rt: HostRuntime) {
    is_right(&rt, logs(rt.alloc()));
    is_right(&rt, are_empty(rt.alloc()));
}
