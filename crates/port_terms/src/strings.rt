//! Lists of bytes, as integers.

ghost use Rattle.std.specs.Prelude.{◌≡◌, ◌++◌, true, OnOk};
ghost use Rattle.std.specs.Option.{SomeIff};
ghost use Rattle.port_terms.specs.Tree.{forest};
ghost use Rattle.port_terms.specs.View.{tree, trees};
ghost use Rattle.port_terms.specs.Written.{is_byte as is_byte_tree, are_bytes as are_byte_trees, is_string as is_string_forest, byte_of as byte_of_tree, bytes_of, written_string};

use crate::tags::STRING_EXT;
use crate::values::{Term, Terms};
use std::alloc::AllocError;

/// Whether a list of these items, if there are any, is written as a string of bytes.
pub(crate) fn is_string(terms: &Terms) -> bool
    ensures { result ≡ is_string_forest terms.now }
{
    terms.count() < 65_536 && are_bytes(&terms.items)
}

fn are_bytes(items: &[Term]) -> bool
    ensures { result ≡ are_byte_trees (forest (trees items.now)) }
{
    items.iter().all(|item| is_byte(item))
}

fn is_byte(term: &Term) -> bool
    ensures { result ≡ is_byte_tree (tree term.now) }
{
    byte_of(term).is_some()
}

/// The integer from 0 to 255 that a term is.
fn byte_of(term: &Term) -> Option<u8>
    ensures { SomeIff result (is_byte_tree (tree term.now) ≡ true) (byte_of_tree (tree term.now)) }
{
    match term {
        Term::Int(number) => u8::try_from(*number).ok(),
        Term::Atom(_) | Term::Bin(_) | Term::Tuple(_) | Term::List(_) => None,
    }
}

/// Appends the spelling of a list of bytes.
#[tactic(auto, using(crate::proofs::Lists::string_is_short, crate::proofs::Lists::string_is_bytes))]
pub(crate) fn put_string(out: &mut Vec<u8>, terms: &Terms) -> Result<(), AllocError>
    requires { is_string_forest terms.now ≡ true }
    ensures { OnOk result (out.new.items ≡ out.old.items ++ written_string terms.now) }
{
    out.push(STRING_EXT)?;
    out.extend_from_slice(&(terms.count() as u16).to_be_bytes())?;
    put_bytes(out, terms)?;
    Ok(())
}

fn put_bytes(out: &mut Vec<u8>, terms: &Terms) -> Result<(), AllocError>
    requires { are_byte_trees terms.now ≡ true }
    ensures { OnOk result (out.new.items ≡ out.old.items ++ bytes_of terms.now) }
{
    for item in &terms.items {
        out.push(byte_of(item).unwrap())?;
    }
    Ok(())
}
