//! Terms of the External Term Format that are written and read.
use anyhow::{Result, ensure};
use port_terms::{
    MAX_DEPTH, MAX_ITEMS, Term, atom, decode, encode, octets, term_depth, term_size, terms,
};
use std::alloc::Global;
use std::rt::Clock;
use std::time::{Duration, Instant};

/// A list of so many tuples, each of small integers, an atom and a binary, of about a hundred bytes.
fn list_of_tuples(alloc: Global, n: u32) -> Result<Term> {
    let mut tuples = Vec::new(alloc);
    for i in 0..n {
        tuples.push(tuple(alloc, i)?)?;
    }
    ensure!(tuples.len() <= MAX_ITEMS, "{n} tuples");
    Ok(Term::List(terms(tuples)))
}

fn tuple(alloc: Global, i: u32) -> Result<Term> {
    let name = atom(alloc, "measurement")?;
    let bytes = vec![in alloc; (i % 256) as u8; 70]?;
    let items = vec![in alloc;
        Term::Int(i64::from(i)),
        Term::Atom(name),
        Term::Int(i64::from(i % 256)),
        Term::Bin(octets(bytes)),
    ]?;
    Ok(Term::Tuple(terms(items)))
}

/// How long it takes to write the list.
pub(crate) fn encode_time<R: Clock + AllocGlobal>(rt: &R, n: u32) -> Result<Duration> {
    write_time(rt, &list_of_tuples(rt.alloc(), n)?)
}

/// How long it takes to read the list.
pub(crate) fn decode_time<R: Clock + AllocGlobal>(rt: &R, n: u32) -> Result<Duration> {
    read_time(rt, &written_list(rt.alloc(), n)?)
}

fn write_time<R: Clock + AllocGlobal>(rt: &R, term: &Term) -> Result<Duration> {
    ensure!(term_depth(term) <= u64::from(MAX_DEPTH), "a term too deep");
    let start = Instant::now(rt)?;
    let bytes = encode(rt.alloc(), term)?;
    let time = start.elapsed(rt)?;
    ensure!(has_length(term, bytes.as_slice()), "another length");
    Ok(time)
}

fn read_time<R: Clock + AllocGlobal>(rt: &R, bytes: &[u8]) -> Result<Duration> {
    let start = Instant::now(rt)?;
    let term = decode(rt.alloc(), bytes)?;
    let time = start.elapsed(rt)?;
    ensure!(has_length(&term, bytes), "another term");
    Ok(time)
}

/// Whether the term's external form has as many bytes as these.
fn has_length(term: &Term, bytes: &[u8]) -> bool {
    term_size(term) == bytes.len() as u64
}

/// The external form of the list.
fn written_list(alloc: Global, n: u32) -> Result<Vec<u8>> {
    let term = list_of_tuples(alloc, n)?;
    ensure!(term_depth(&term) <= u64::from(MAX_DEPTH), "a term too deep");
    Ok(encode(alloc, &term)?)
}
