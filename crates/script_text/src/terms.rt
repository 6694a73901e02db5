//! TERMs: numbers, atoms, binaries, lists and tuples.

ghost use Rattle.std.specs.Prelude.{◌≡◌, ◌≤◌, ℕ, List, Some, true, length, IfOk};
ghost use Rattle.port_terms.specs.View.{tree, trees};
ghost use Rattle.port_terms.specs.Spelling.{ints};
ghost use Rattle.port_terms.specs.declared.values.TheConstants.{MAX_ITEMS};
ghost use Rattle.script_text.specs.Data.{term as term_language, SpellsTerm};
ghost use Rattle.script_text.specs.InFront.{InFront, IsEnd};
ghost use Rattle.port_terms.specs.Tree.{Tree};
ghost use Rattle.script_text.specs.Tokens.{is_name};
ghost use Rattle.script_text.specs.PartFault.{Reads, Gives};
ghost use Rattle.script_text.specs.Reading.{string_at, binary_at, atom_at, int_at, some_at, forest_at, list_at, tuple_at, value_at};

use crate::fault::PartFault;
use crate::openings::{Opening, opening_of};
use crate::texts::text;
use crate::tokens::{after, after_twice, is_name, skip_gap, split_name, whole};
use port_terms::{AtomFault, AtomName, MAX_DEPTH, MAX_ITEMS, Term, Terms, atom, terms};
use std::alloc::{AllocError, Global};

/// The TERM in front of the bytes, and what stands behind it: a whole number of 64 bits with `-` before it or not, a NAME as an
/// atom, a TEXT as the list of its bytes, `<<TEXT>>` as a binary, or terms separated by commas in `{` `}` as a tuple or in `[` `]` as
/// a list. Spaces may stand between its parts. It has at most 64 levels, and each tuple and list at most 262,143 items.
pub fn read_term(alloc: Global, bytes: &[u8]) -> Result<(Term, &[u8]), PartFault>
    // What is read is spelled so.
    ensures found { IfOk result (λ x. InFront SpellsTerm (tree x.0) bytes.now x.1.now) }
    // What is spelled so is read, unless memory runs out, where the rest doesn't go on with a name or a number.
    ensures only { (t : Tree) (rest : List ℕ) → InFront SpellsTerm t bytes.now rest → IsEnd rest → Gives (λ x. tree x.0) (λ x. x.1.now) result t rest }
    // It is what the definition reads there.
    ensures reads { Reads (λ x. (tree x.0, x.1.now)) result (value_at term_language MAX_DEPTH bytes.now) }
{
    term(alloc, MAX_DEPTH, bytes)
}

/// A TERM of at most so many levels.
#[cycle(term)]
#[tactic(auto, using(crate::proofs::Levels::value_below), unfolding(crate::specs::Reading::value_at))]
fn term(alloc: Global, levels: u32, bytes: &[u8]) -> Result<(Term, &[u8]), PartFault>
    ensures { Reads (λ x. (tree x.0, x.1.now)) result (value_at term_language levels bytes.now) }
{
    if levels == 0 {
        return Err(PartFault::Bad);
    }
    match opening_of(bytes) {
        Opening::Quote => string(alloc, levels - 1, bytes),
        Opening::Bracket => list(alloc, levels - 1, bytes),
        Opening::Brace => tuple(alloc, levels - 1, bytes),
        Opening::Angle => binary(alloc, bytes),
        Opening::Letter => name(alloc, bytes),
        Opening::Other => integer(bytes),
    }
}

/// Terms in brackets, of at most so many levels each.
#[cycle(term)]
#[tactic(auto, unfolding(crate::specs::Reading::list_at))]
fn list(alloc: Global, levels: u32, bytes: &[u8]) -> Result<(Term, &[u8]), PartFault>
    ensures { Reads (λ x. (tree x.0, x.1.now)) result (list_at (value_at term_language levels) bytes.now) }
{
    let inner = after(b'[', bytes).ok_or(PartFault::Bad)?;
    let (items, rest) = items(alloc, levels, b']', inner)?;
    Ok((Term::List(items), rest))
}

/// Terms in braces, of at most so many levels each.
#[cycle(term)]
#[tactic(auto, unfolding(crate::specs::Reading::tuple_at))]
fn tuple(alloc: Global, levels: u32, bytes: &[u8]) -> Result<(Term, &[u8]), PartFault>
    ensures { Reads (λ x. (tree x.0, x.1.now)) result (tuple_at (value_at term_language levels) bytes.now) }
{
    let inner = after(b'{', bytes).ok_or(PartFault::Bad)?;
    let (items, rest) = items(alloc, levels, b'}', inner)?;
    Ok((Term::Tuple(items), rest))
}

/// Terms up to what closes them.
#[cycle(term)]
#[tactic(auto, unfolding(crate::specs::Reading::forest_at, crate::specs::Reading::all_at))]
fn items(alloc: Global, levels: u32, close: u8, bytes: &[u8]) -> Result<(Terms, &[u8]), PartFault>
    ensures { Reads (λ x. (x.0, x.1.now)) result (forest_at (value_at term_language levels) close bytes.now) }
{
    if let Some(rest) = after(close, skip_gap(bytes)) {
        return Ok((terms(Vec::new(alloc)), rest));
    }
    let (items, rest) = some_items(alloc, levels, close, bytes)?;
    Ok((terms(items), rest))
}

/// One or more terms, and what closes them.
#[cycle(term)]
fn some_items(
    alloc: Global,
    levels: u32,
    close: u8,
    bytes: &[u8],
) -> Result<(Vec<Term>, &[u8]), PartFault>
    ensures reads { Reads (λ x. (trees x.0.items, x.1.now)) result (some_at (value_at term_language levels) close MAX_ITEMS bytes.now) }
    ensures few { IfOk result (λ x. length x.0.items ≤ MAX_ITEMS) }
{
    let mut items = Vec::new(alloc);
    let mut rest = bytes;
    for _ in 0..MAX_ITEMS {
        let (item, behind) = term(alloc, levels, skip_gap(rest))?;
        items.push(item)?;
        let next = skip_gap(behind);
        if let Some(behind) = after(close, next) {
            return Ok((items, behind));
        }
        let Some(behind) = after(b',', next) else {
            return Err(PartFault::Bad);
        };
        rest = behind;
    }
    Err(PartFault::Bad)
}

/// A TEXT as the list of its bytes, which have so many levels left.
#[tactic(auto, unfolding(crate::specs::Reading::string_at))]
fn string(alloc: Global, levels: u32, bytes: &[u8]) -> Result<(Term, &[u8]), PartFault>
    ensures { Reads (λ x. (tree x.0, x.1.now)) result (string_at levels bytes.now) }
{
    let (content, rest) = text(alloc, bytes)?;
    if levels == 0 && !content.as_slice().is_empty() {
        return Err(PartFault::Bad);
    }
    Ok((Term::List(integers(alloc, content.as_slice())?), rest))
}

/// The bytes, each as an integer.
fn integers(alloc: Global, bytes: &[u8]) -> Result<Terms, AllocError>
    requires { length bytes.now ≤ MAX_ITEMS }
    ensures { IfOk result (λ ts. ts ≡ ints bytes.now) }
{
    let mut items = Vec::new(alloc);
    for byte in bytes {
        items.push(Term::Int(i64::from(*byte)))?;
    }
    Ok(terms(items))
}

/// A binary: a TEXT between `<<` and `>>`.
#[tactic(auto, unfolding(crate::specs::Reading::binary_at))]
fn binary(alloc: Global, bytes: &[u8]) -> Result<(Term, &[u8]), PartFault>
    ensures { Reads (λ x. (tree x.0, x.1.now)) result (binary_at bytes.now) }
{
    let inner = after_twice(b'<', bytes).ok_or(PartFault::Bad)?;
    let (content, behind) = text(alloc, skip_gap(inner))?;
    let rest = after_twice(b'>', skip_gap(behind)).ok_or(PartFault::Bad)?;
    Ok((Term::Bin(content), rest))
}

/// A NAME as an atom.
#[tactic(auto, unfolding(crate::specs::Reading::atom_at, crate::specs::Reading::name_at))]
fn name(alloc: Global, bytes: &[u8]) -> Result<(Term, &[u8]), PartFault>
    ensures { Reads (λ x. (tree x.0, x.1.now)) result (atom_at bytes.now) }
{
    let (text, rest) = split_name(bytes);
    if !is_name(text) {
        return Err(PartFault::Bad);
    }
    Ok((Term::Atom(atom_of(alloc, text)?), rest))
}

/// The atom with this NAME.
fn atom_of(alloc: Global, name: &[u8]) -> Result<AtomName, PartFault>
    requires { is_name name.now ≡ true }
    ensures { Reads (λ atom. atom) result (Some name.now) }
{
    let Ok(text) = str::from_utf8(name) else {
        unreachable!()
    };
    match atom(alloc, text) {
        Ok(name) => Ok(name),
        Err(AtomFault::TooLong { .. }) => unreachable!(),
        Err(AtomFault::NoMemory) => Err(PartFault::NoMemory),
    }
}

/// A whole number of 64 bits.
#[tactic(auto, unfolding(crate::specs::Reading::int_at))]
fn integer(bytes: &[u8]) -> Result<(Term, &[u8]), PartFault>
    ensures { Reads (λ x. (tree x.0, x.1.now)) result (int_at bytes.now) }
{
    let (number, rest) = whole(bytes).ok_or(PartFault::Bad)?;
    Ok((Term::Int(number), rest))
}
