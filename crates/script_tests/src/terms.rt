use crate::checks::{is_right, none_is_wrong};
use port_terms::{
    AtomFault, IoList, IoParts, Term, TermFault, atom, decode, encode, flatten, octets, parts,
    term_copy, term_depth, term_size, terms,
};
use std::alloc::{AllocError, Global};
use std::fmt::Display;

/// `{1, "ab", -5}`
const TRIPLE: [u8; 15] = [
    131, 104, 3, 97, 1, 107, 0, 2, 97, 98, 98, 255, 255, 255, 251,
];

/// Whether the term is written as these bytes.
fn writes(alloc: Global, term: &Term, written: &[u8]) -> bool {
    term_depth(term) <= 64
        && term_size(term) == written.len() as u64
        && matches!(encode(alloc, term), Ok(found) if found.as_slice() == written)
}

/// Whether the bytes are read, and the term is written as the others.
fn is_written(alloc: Global, bytes: &[u8], written: &[u8]) -> bool {
    matches!(decode(alloc, bytes), Ok(term) if writes(alloc, &term, written))
}

/// Why the bytes aren't read, if they aren't.
fn fault_of(alloc: Global, bytes: &[u8]) -> Option<TermFault> {
    decode(alloc, bytes).err()
}

/// The integer that the bytes are read as.
fn integer_of(alloc: Global, bytes: &[u8]) -> Option<i64> {
    match decode(alloc, bytes) {
        Ok(Term::Int(number)) => Some(number),
        _ => None,
    }
}

/// The numbers of a tuple of an integer, a list of two and another integer.
fn numbers_of(term: &Term) -> Option<[i64; 4]> {
    let Term::Tuple(items) = term else {
        return None;
    };
    let [Term::Int(first), Term::List(list), Term::Int(last)] = items.as_slice() else {
        return None;
    };
    let [Term::Int(a), Term::Int(b)] = list.as_slice() else {
        return None;
    };
    Some([*first, *a, *b, *last])
}

/// The numbers that the bytes are read as.
fn read_numbers_of(alloc: Global, bytes: &[u8]) -> Option<[i64; 4]> {
    match &decode(alloc, bytes) {
        Ok(term) => numbers_of(term),
        Err(_) => None,
    }
}

/// The parts of the bytes of a term behind its version: a head, so many times the same bytes, and the last ones.
type RepeatedParts<'a> = (&'a [u8], usize, &'a [u8], &'a [u8]);

fn repeated(alloc: Global, parts: RepeatedParts<'_>) -> Result<Vec<u8>, AllocError> {
    let (head, n, item, last) = parts;
    let mut bytes = Vec::from_slice(alloc, &[131])?;
    bytes.extend_from_slice(head)?;
    bytes.extend_from_slice(item.repeat(alloc, n)?.as_slice())?;
    bytes.extend_from_slice(last)?;
    Ok(bytes)
}

/// Why such bytes aren't read, if they aren't.
fn repeated_fault(alloc: Global, parts: RepeatedParts<'_>) -> Option<TermFault> {
    match &repeated(alloc, parts) {
        Ok(bytes) => fault_of(alloc, bytes.as_slice()),
        Err(_) => Some(TermFault::NoMemory),
    }
}

/// Whether such bytes are read, and their term is written so again.
fn is_written_again(alloc: Global, parts: RepeatedParts<'_>) -> bool {
    match &repeated(alloc, parts) {
        Ok(bytes) => is_written(alloc, bytes.as_slice(), bytes.as_slice()),
        Err(_) => false,
    }
}

/// The list of 97 and 98.
fn listed(alloc: Global) -> Result<Term, AllocError> {
    let items = vec![in alloc; Term::Int(97), Term::Int(98)]?;
    Ok(Term::List(terms(items)))
}

/// The tuple of 1, that list and -5.
fn triple(alloc: Global) -> Result<Term, AllocError> {
    let items = vec![in alloc; Term::Int(1), listed(alloc)?, Term::Int(-5)]?;
    Ok(Term::Tuple(terms(items)))
}

/// The size of a copy of a term that isn't too deep.
fn copied_size(alloc: Global, term: &Term) -> Option<u64> {
    if term_depth(term) > 64 {
        return None;
    }
    match &term_copy(alloc, term) {
        Ok(copy) => Some(term_size(copy)),
        Err(_) => None,
    }
}

/// The size of a term and of its copy, its depth, and whether it is written as a triple.
fn measures(alloc: Global, term: &Term) -> (u64, Option<u64>, u64, bool) {
    (
        term_size(term),
        copied_size(alloc, term),
        term_depth(term),
        writes(alloc, term, &TRIPLE),
    )
}

/// The same of the triple.
fn triple_measures(alloc: Global) -> Option<(u64, Option<u64>, u64, bool)> {
    match &triple(alloc) {
        Ok(triple) => Some(measures(alloc, triple)),
        Err(_) => None,
    }
}

#[test]
fn a_triple_is_written(rt: HostRuntime) {
    is_right(
        &rt,
        triple_measures(rt.alloc()) == Some((15, Some(15), 3, true)),
    );
    is_right(&rt, is_written(rt.alloc(), &TRIPLE, &TRIPLE));
}

#[test]
fn a_triple_is_read(rt: HostRuntime) {
    is_right(
        &rt,
        read_numbers_of(rt.alloc(), &TRIPLE) == Some([1, 97, 98, -5]),
    );
}

/// The place of the first bytes that aren't read for another reason, if there are such.
fn first_other_repeated_fault(
    alloc: Global,
    cases: &[(RepeatedParts<'_>, TermFault)],
) -> Option<usize> {
    for (at, case) in cases.iter().enumerate() {
        let (parts, fault) = *case;
        if repeated_fault(alloc, parts) != Some(fault) {
            return Some(at);
        }
    }
    None
}

/// The triple without its last two bytes and with one more, and tuples in one another.
const FAULTS_IN_PLACES: [(RepeatedParts<'static>, TermFault); 4] = [
    (
        (
            &[104, 3, 97, 1, 107, 0, 2, 97, 98, 98, 255, 255],
            0,
            &[],
            &[],
        ),
        TermFault::Cut { at: 13 },
    ),
    (
        (
            &[104, 3, 97, 1, 107, 0, 2, 97, 98, 98, 255, 255, 255, 251],
            0,
            &[],
            &[0],
        ),
        TermFault::Trailing { at: 15 },
    ),
    ((&[], 65, &[104, 1], &[]), TermFault::TooDeep { at: 129 }),
    ((&[], 64, &[104, 1], &[]), TermFault::TooDeep { at: 129 }),
];

#[test]
fn faults_have_their_places(rt: HostRuntime) {
    none_is_wrong(
        &rt,
        first_other_repeated_fault(rt.alloc(), &FAULTS_IN_PLACES),
    );
}

/// Whether a fault is shown as this text.
fn is_shown<T: Display>(alloc: Global, fault: &T, wanted: &str) -> bool {
    matches!(&format!(in alloc; "{fault}"), Ok(text) if text.as_str() == wanted)
}

#[test]
fn faults_show_their_places(rt: HostRuntime) {
    let long = AtomFault::TooLong { chars: 256 };
    is_right(&rt, is_shown(rt.alloc(), &long, "a name of 256 characters"));
    let refused = TermFault::NotServed { at: 2, tag: 77 };
    is_right(
        &rt,
        is_shown(rt.alloc(), &refused, "tag 77 is not served, at byte 2"),
    );
}

/// The place of the first bytes that aren't read for another reason, if there are such.
fn first_other_fault(alloc: Global, cases: &[(&[u8], TermFault)]) -> Option<usize> {
    for (at, case) in cases.iter().enumerate() {
        let (bytes, fault) = *case;
        if fault_of(alloc, bytes) != Some(fault) {
            return Some(at);
        }
    }
    None
}

/// Bytes that aren't read, and why.
const FAULTS: [(&[u8], TermFault); 16] = [
    (&[], TermFault::Cut { at: 0 }),
    (&[131], TermFault::Cut { at: 1 }),
    (&[131, 109, 0, 0, 0, 2, 1], TermFault::Cut { at: 7 }),
    (&[131, 105, 0, 3, 255, 255], TermFault::Cut { at: 6 }),
    (&[131, 108, 0, 0, 0, 1, 97, 1], TermFault::Cut { at: 8 }),
    (&[130, 97, 1], TermFault::BadTag { at: 0, tag: 130 }),
    (&[131, 104, 1, 122], TermFault::BadTag { at: 3, tag: 122 }),
    (&[131, 70], TermFault::NotServed { at: 1, tag: 70 }),
    (&[131, 121], TermFault::NotServed { at: 1, tag: 121 }),
    (
        &[131, 108, 0, 0, 0, 1, 97, 1, 107],
        TermFault::NotServed { at: 8, tag: 107 },
    ),
    (
        &[131, 110, 8, 0, 0, 0, 0, 0, 0, 0, 0, 128],
        TermFault::TooBig { at: 1 },
    ),
    (
        &[131, 110, 8, 1, 1, 0, 0, 0, 0, 0, 0, 128],
        TermFault::TooBig { at: 1 },
    ),
    (&[131, 109, 0, 4, 0, 0], TermFault::TooBig { at: 1 }),
    (
        &[131, 104, 1, 108, 255, 255, 255, 255],
        TermFault::TooBig { at: 3 },
    ),
    (&[131, 119, 1, 255, 0], TermFault::BadText { at: 1 }),
    (&[131, 106, 106], TermFault::Trailing { at: 2 }),
];

#[test]
fn each_fault_is_told(rt: HostRuntime) {
    none_is_wrong(&rt, first_other_fault(rt.alloc(), &FAULTS));
}

/// The place of the first bytes of another integer, if there are such.
fn first_other_integer(alloc: Global, cases: &[(&[u8], i64)]) -> Option<usize> {
    for (at, case) in cases.iter().enumerate() {
        let (bytes, value) = *case;
        if integer_of(alloc, bytes) != Some(value) {
            return Some(at);
        }
    }
    None
}

/// Bytes of integers, and their values.
const INTEGERS: [(&[u8], i64); 16] = [
    (&[131, 97, 0], 0),
    (&[131, 97, 255], 255),
    (&[131, 98, 0, 0, 1, 0], 256),
    (&[131, 98, 255, 255, 255, 255], -1),
    (&[131, 98, 127, 255, 255, 255], 2_147_483_647),
    (&[131, 98, 128, 0, 0, 0], -2_147_483_648),
    (&[131, 110, 4, 0, 0, 0, 0, 128], 2_147_483_648),
    (&[131, 110, 4, 1, 1, 0, 0, 128], -2_147_483_649),
    (&[131, 110, 2, 0, 1, 2], 513),
    (
        &[131, 110, 8, 0, 255, 255, 255, 255, 255, 255, 255, 127],
        i64::MAX,
    ),
    (&[131, 110, 8, 1, 0, 0, 0, 0, 0, 0, 0, 128], i64::MIN),
    (&[131, 110, 9, 1, 5, 0, 0, 0, 0, 0, 0, 0, 0], -5),
    (&[131, 110, 1, 2, 5], -5),
    (&[131, 110, 0, 0], 0),
    (&[131, 110, 0, 1], 0),
    (&[131, 98, 0, 0, 0, 7], 7),
];

#[test]
fn integers_have_their_values(rt: HostRuntime) {
    none_is_wrong(&rt, first_other_integer(rt.alloc(), &INTEGERS));
}

/// The place of the first bytes whose term is written otherwise, if there are such.
fn first_written_otherwise(alloc: Global, cases: &[(&[u8], &[u8])]) -> Option<usize> {
    for (at, case) in cases.iter().enumerate() {
        let (bytes, written) = *case;
        if !is_written(alloc, bytes, written) {
            return Some(at);
        }
    }
    None
}

/// Bytes of terms, and how each term is written.
const TAGS: [(&[u8], &[u8]); 17] = [
    (&[131, 97, 255], &[131, 97, 255]),
    (&[131, 98, 0, 0, 0, 255], &[131, 97, 255]),
    (&[131, 98, 0, 0, 1, 0], &[131, 98, 0, 0, 1, 0]),
    (
        &[131, 110, 5, 0, 0, 0, 0, 128, 0],
        &[131, 110, 4, 0, 0, 0, 0, 128],
    ),
    (&[131, 119, 2, 195, 169], &[131, 119, 2, 195, 169]),
    (&[131, 118, 0, 2, 195, 169], &[131, 119, 2, 195, 169]),
    (&[131, 115, 1, 233], &[131, 119, 2, 195, 169]),
    (&[131, 100, 0, 1, 233], &[131, 119, 2, 195, 169]),
    (&[131, 100, 0, 0], &[131, 119, 0]),
    (&[131, 104, 0], &[131, 104, 0]),
    (&[131, 105, 0, 0, 0, 1, 106], &[131, 104, 1, 106]),
    (&[131, 106], &[131, 106]),
    (&[131, 107, 0, 0], &[131, 106]),
    (&[131, 108, 0, 0, 0, 0, 106], &[131, 106]),
    (&[131, 108, 0, 0, 0, 1, 97, 9, 106], &[131, 107, 0, 1, 9]),
    (
        &[131, 108, 0, 0, 0, 1, 106, 106],
        &[131, 108, 0, 0, 0, 1, 106, 106],
    ),
    (
        &[131, 109, 0, 0, 0, 2, 0, 255],
        &[131, 109, 0, 0, 0, 2, 0, 255],
    ),
];

#[test]
fn each_tag_is_read_and_written(rt: HostRuntime) {
    none_is_wrong(&rt, first_written_otherwise(rt.alloc(), &TAGS));
}

/// The place of the first bytes that aren't written so again, if there are such.
fn first_not_written_again(alloc: Global, cases: &[RepeatedParts<'_>]) -> Option<usize> {
    for (at, parts) in cases.iter().enumerate() {
        if !is_written_again(alloc, *parts) {
            return Some(at);
        }
    }
    None
}

/// Terms whose lengths stand at a border of their tags.
const BORDERS: [RepeatedParts<'static>; 5] = [
    (&[104, 255], 255, &[106], &[]),
    (&[105, 0, 0, 1, 0], 256, &[106], &[]),
    (&[119, 254], 127, &[195, 169], &[]),
    (&[118, 1, 0], 128, &[195, 169], &[]),
    (&[118, 1, 254], 255, &[195, 169], &[]),
];

#[test]
fn lengths_at_the_borders_are_read_and_written(rt: HostRuntime) {
    none_is_wrong(&rt, first_not_written_again(rt.alloc(), &BORDERS));
    let long = repeated_fault(rt.alloc(), (&[100, 1, 0], 256, &[97], &[]));
    is_right(&rt, long == Some(TermFault::BadText { at: 1 }));
}

#[test]
fn the_last_level_has_no_items(rt: HostRuntime) {
    is_right(
        &rt,
        is_written_again(rt.alloc(), (&[], 63, &[104, 1], &[106])),
    );
    let deep = repeated_fault(rt.alloc(), (&[], 63, &[104, 1], &[107, 0, 1]));
    is_right(&rt, deep == Some(TermFault::TooDeep { at: 127 }));
}

/// Text of one byte.
fn text_part(alloc: Global, byte: u8) -> Result<IoList, AllocError> {
    let bytes = vec![in alloc; byte]?;
    Ok(IoList::Bin(octets(bytes)))
}

/// A list of text of one byte.
fn inner_part(alloc: Global, byte: u8) -> Result<IoList, AllocError> {
    let items = vec![in alloc; text_part(alloc, byte)?]?;
    Ok(IoList::List(parts(items)))
}

/// The items of a list of the byte `a`, the text `b` and a list of the text `c`.
fn mixed_parts(alloc: Global) -> Result<IoParts, AllocError> {
    let text = text_part(alloc, b'b')?;
    let inner = inner_part(alloc, b'c')?;
    let items = vec![in alloc; IoList::Byte(97), text, inner]?;
    Ok(parts(items))
}

/// The number of these items, and their bytes.
fn flattened_parts(alloc: Global) -> Option<(usize, Vec<u8>)> {
    let parts = mixed_parts(alloc).ok()?;
    let count = parts.as_slice().len();
    let bytes = flatten(alloc, &IoList::List(parts)).ok()?;
    Some((count, bytes))
}

/// Whether there are so many items, of these bytes.
fn are_flattened(alloc: Global, count: usize, wanted: &[u8]) -> bool {
    match &flattened_parts(alloc) {
        Some((parts, bytes)) => *parts == count && bytes.as_slice() == wanted,
        None => false,
    }
}

#[test]
fn an_io_list_is_flattened(rt: HostRuntime) {
    is_right(&rt, are_flattened(rt.alloc(), 3, b"abc"));
}

/// Whether the text is read as a name, and lent again.
fn is_lent(alloc: Global, text: &str) -> bool {
    matches!(atom(alloc, text), Ok(name) if name.as_str() == text)
}

/// Whether two bytes are lent again.
fn are_lent(alloc: Global, first: u8, second: u8) -> bool {
    match vec![in alloc; first, second] {
        Ok(bytes) => octets(bytes).as_slice() == [first, second].as_slice(),
        Err(_) => false,
    }
}

/// Why the text is no name, if it is none.
fn atom_fault(alloc: Global, text: &str) -> Option<AtomFault> {
    atom(alloc, text).err()
}

/// Why the text, so many times, is no name, if it is none.
fn long_atom_fault(alloc: Global, text: &str, times: usize) -> Option<AtomFault> {
    match &text.repeat(alloc, times) {
        Ok(text) => atom_fault(alloc, text.as_str()),
        Err(_) => Some(AtomFault::NoMemory),
    }
}

#[test]
fn names_and_bytes_are_lent(rt: HostRuntime) {
    is_right(&rt, is_lent(rt.alloc(), "tally"));
    is_right(&rt, are_lent(rt.alloc(), 1, 2));
    let fault = long_atom_fault(rt.alloc(), "é", 256);
    is_right(&rt, fault == Some(AtomFault::TooLong { chars: 256 }));
}
