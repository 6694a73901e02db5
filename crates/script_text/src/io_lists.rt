//! IOLISTs: bytes and TEXTs in brackets.

ghost use Rattle.std.specs.Prelude.{◌≤◌, ℕ, List, Some, length, IfOk};
ghost use Rattle.port_terms.specs.IoView.{io_tree, io_trees};
ghost use Rattle.port_terms.specs.declared.values.TheConstants.{MAX_ITEMS};
ghost use Rattle.std.specs.Cow.{cow_slice_items};
ghost use Rattle.script_text.specs.Borrowed.{Borrows};
ghost use Rattle.script_text.specs.Data.{io_item, SpellsIoList};
ghost use Rattle.script_text.specs.InFront.{InFront};
ghost use Rattle.port_terms.specs.Tree.{Tree};
ghost use Rattle.script_text.specs.PartFault.{Reads, Gives};
ghost use Rattle.script_text.specs.Reading.{bin_at, io_byte_at, some_at, forest_at, list_at, value_at, io_list_at, io_bytes_at};

use crate::fault::PartFault;
use crate::openings::{Opening, opening_of};
use crate::texts::{text, text_content};
use crate::tokens::{after, number, skip_gap};
use port_terms::{IoList, IoParts, MAX_DEPTH, MAX_ITEMS, flatten, parts};
use std::alloc::Global;
use std::borrow::CowSlice;

/// The IOLIST in front of the bytes, and what stands behind it: a TEXT, or `[` and `]` round items separated by commas, where an item
/// is a NUMBER up to 255 or an IOLIST. Spaces may stand between its parts. It has at most 64 levels, and each list at most 262,143
/// items.
pub fn read_io_list(alloc: Global, bytes: &[u8]) -> Result<(IoList, &[u8]), PartFault>
    // What is read is spelled so.
    ensures found { IfOk result (λ x. InFront SpellsIoList (io_tree x.0) bytes.now x.1.now) }
    // What is spelled so is read, unless memory runs out.
    ensures only { (list : Tree) (rest : List ℕ) → InFront SpellsIoList list bytes.now rest → Gives (λ x. io_tree x.0) (λ x. x.1.now) result list rest }
    // It is what the definition reads there.
    ensures reads { Reads (λ x. (io_tree x.0, x.1.now)) result (io_list_at bytes.now) }
{
    io_list(alloc, bytes)
}

/// The bytes of the IOLIST in front, from left to right, and what stands behind it. Those of a TEXT without escapes aren't copied:
/// they are borrowed from where they stand, behind the opening quote. Those of a list in brackets are copied twice.
#[tactic(auto, unfolding(crate::specs::Reading::io_bytes_at, crate::specs::Reading::io_list_at, crate::specs::Reading::value_at, crate::specs::Reading::bin_at))]
pub fn read_io_bytes(alloc: Global, bytes: &[u8]) -> Result<(CowSlice<'_, u8>, &[u8]), PartFault>
    // They are the bytes of what the definition reads there.
    ensures reads { Reads (λ x. (cow_slice_items x.0, x.1.now)) result (io_bytes_at bytes.now) }
    // Where they are borrowed, they stand behind the first byte.
    ensures borrowed { IfOk result (λ x. Borrows x.0 bytes.now) }
{
    match opening_of(bytes) {
        Opening::Quote => text_content(alloc, bytes),
        _ => flat_list(alloc, bytes),
    }
}

/// The bytes of the IOLIST in front, and what stands behind it.
#[tactic(auto, unfolding(crate::specs::Reading::io_bytes_at))]
fn flat_list(alloc: Global, bytes: &[u8]) -> Result<(CowSlice<'_, u8>, &[u8]), PartFault>
    ensures reads { Reads (λ x. (cow_slice_items x.0, x.1.now)) result (io_bytes_at bytes.now) }
    ensures borrowed { IfOk result (λ x. Borrows x.0 bytes.now) }
{
    let (list, rest) = io_list(alloc, bytes)?;
    Ok((CowSlice::Owned(flatten(alloc, &list)?), rest))
}

/// The IOLIST in front, and what stands behind it.
#[tactic(auto, unfolding(crate::specs::Reading::io_list_at))]
fn io_list(alloc: Global, bytes: &[u8]) -> Result<(IoList, &[u8]), PartFault>
    ensures { Reads (λ x. (io_tree x.0, x.1.now)) result (io_list_at bytes.now) }
{
    let (list, rest) = io_item(alloc, MAX_DEPTH, bytes)?;
    match list {
        IoList::Byte(_) => Err(PartFault::Bad),
        IoList::Bin(_) | IoList::List(_) => Ok((list, rest)),
    }
}

/// An item of an IOLIST, of at most so many levels.
#[cycle(io_item)]
#[tactic(auto, using(crate::proofs::Levels::value_below), unfolding(crate::specs::Reading::value_at))]
fn io_item(alloc: Global, levels: u32, bytes: &[u8]) -> Result<(IoList, &[u8]), PartFault>
    ensures { Reads (λ x. (io_tree x.0, x.1.now)) result (value_at io_item levels bytes.now) }
{
    if levels == 0 {
        return Err(PartFault::Bad);
    }
    match opening_of(bytes) {
        Opening::Quote => bin(alloc, bytes),
        Opening::Bracket => io_list_of(alloc, levels - 1, bytes),
        Opening::Brace | Opening::Angle | Opening::Letter => Err(PartFault::Bad),
        Opening::Other => io_byte(bytes),
    }
}

/// Items in brackets, of at most so many levels each.
#[cycle(io_item)]
#[tactic(auto, unfolding(crate::specs::Reading::list_at))]
fn io_list_of(alloc: Global, levels: u32, bytes: &[u8]) -> Result<(IoList, &[u8]), PartFault>
    ensures { Reads (λ x. (io_tree x.0, x.1.now)) result (list_at (value_at io_item levels) bytes.now) }
{
    let inner = after(b'[', bytes).ok_or(PartFault::Bad)?;
    let (items, rest) = io_items(alloc, levels, inner)?;
    Ok((IoList::List(items), rest))
}

/// Items up to the bracket that closes them.
#[cycle(io_item)]
#[tactic(auto, unfolding(crate::specs::Reading::forest_at, crate::specs::Reading::all_at))]
fn io_items(alloc: Global, levels: u32, bytes: &[u8]) -> Result<(IoParts, &[u8]), PartFault>
    ensures { Reads (λ x. (x.0, x.1.now)) result (forest_at (value_at io_item levels) 93 bytes.now) }
{
    if let Some(rest) = after(b']', skip_gap(bytes)) {
        return Ok((parts(Vec::new(alloc)), rest));
    }
    let (items, rest) = some_io_items(alloc, levels, bytes)?;
    Ok((parts(items), rest))
}

/// One or more items, and the bracket that closes them.
#[cycle(io_item)]
fn some_io_items(
    alloc: Global,
    levels: u32,
    bytes: &[u8],
) -> Result<(Vec<IoList>, &[u8]), PartFault>
    ensures reads { Reads (λ x. (io_trees x.0.items, x.1.now)) result (some_at (value_at io_item levels) 93 MAX_ITEMS bytes.now) }
    ensures few { IfOk result (λ x. length x.0.items ≤ MAX_ITEMS) }
{
    let mut items = Vec::new(alloc);
    let mut rest = bytes;
    for _ in 0..MAX_ITEMS {
        let (item, behind) = io_item(alloc, levels, skip_gap(rest))?;
        items.push(item)?;
        let next = skip_gap(behind);
        if let Some(behind) = after(b']', next) {
            return Ok((items, behind));
        }
        let Some(behind) = after(b',', next) else {
            return Err(PartFault::Bad);
        };
        rest = behind;
    }
    Err(PartFault::Bad)
}

/// The TEXT in front, as bytes.
#[tactic(auto, unfolding(crate::specs::Reading::bin_at))]
fn bin(alloc: Global, bytes: &[u8]) -> Result<(IoList, &[u8]), PartFault>
    ensures { Reads (λ x. (io_tree x.0, x.1.now)) result (bin_at bytes.now) }
{
    let (content, rest) = text(alloc, bytes)?;
    Ok((IoList::Bin(content), rest))
}

/// The NUMBER up to 255 in front.
#[tactic(auto, unfolding(crate::specs::Reading::io_byte_at))]
fn io_byte(bytes: &[u8]) -> Result<(IoList, &[u8]), PartFault>
    ensures { Reads (λ x. (io_tree x.0, x.1.now)) result (io_byte_at bytes.now) }
{
    let (number, rest) = number(bytes).ok_or(PartFault::Bad)?;
    match u8::try_from(number) {
        Ok(byte) => Ok((IoList::Byte(byte), rest)),
        Err(_) => Err(PartFault::Bad),
    }
}
