ghost use Rattle.std.specs.Prelude.{◌≡◌, ◌++◌, ◌<◌, ◌≤◌, ◌^◌, length, IfOk, OnOk, encode_utf8_all};
ghost use Rattle.port_terms.specs.declared.values.TheConstants.{MAX_DEPTH, MAX_ITEMS};
ghost use Rattle.port_terms.specs.Tree.{bin, tuple, list, depth};
ghost use Rattle.port_terms.specs.View.{tree};
ghost use Rattle.port_terms.specs.Spelling.{IsExternal, IsName};
ghost use Rattle.port_terms.specs.Limits.{IsTerm, AreTerms};
ghost use Rattle.port_terms.specs.Written.{external, written, written_all, written_arity, written_int, written_name};

use crate::integers::{IntegerForm, digit_count, form_of, put_digits};
use crate::strings::{is_string, put_string};
use crate::tags::*;
use crate::values::{AtomName, Octets, Term, Terms};
use no_memory::NoMemory;
use std::alloc::{AllocError, Global};

/// The external form of a term, in the one spelling that is written.
pub fn encode(alloc: Global, term: &Term) -> Result<Vec<u8>, NoMemory>
    requires { depth (tree term.now) ≤ MAX_DEPTH }
    ensures written { IfOk result (λ v. v.items ≡ external (tree term.now)) }
    ensures spelled { IfOk result (λ v. IsExternal (tree term.now) v.items) }
{
    let mut out = Vec::new(alloc);
    out.push(VERSION)?;
    put_term(&mut out, term)?;
    Ok(out)
}

#[cycle(put)]
fn put_term(out: &mut Vec<u8>, term: &Term) -> Result<(), AllocError>
    ensures added { OnOk result (out.new.items ≡ out.old.items ++ written (tree term.now)) }
    ensures limits { OnOk result (IsTerm (tree term.now)) }
{
    match term {
        Term::Int(number) => put_integer(out, *number)?,
        Term::Atom(name) => put_name(out, name)?,
        Term::Bin(octets) => put_binary(out, octets)?,
        Term::Tuple(items) => put_tuple(out, items)?,
        Term::List(items) => put_list(out, items)?,
    }
    Ok(())
}

#[cycle(put)]
fn put_tuple(out: &mut Vec<u8>, terms: &Terms) -> Result<(), AllocError>
    ensures added { OnOk result (out.new.items ≡ out.old.items ++ written (tuple terms.now)) }
    ensures limits { OnOk result (IsTerm (tuple terms.now)) }
{
    put_arity(out, terms.count())?;
    put_items(out, terms)?;
    Ok(())
}

#[cycle(put)]
fn put_list(out: &mut Vec<u8>, terms: &Terms) -> Result<(), AllocError>
    ensures added { OnOk result (out.new.items ≡ out.old.items ++ written (list terms.now)) }
    ensures limits { OnOk result (IsTerm (list terms.now)) }
{
    if terms.count() == 0 {
        out.push(NIL_EXT)?;
        return Ok(());
    }
    if is_string(terms) {
        put_string(out, terms)?;
        return Ok(());
    }
    out.push(LIST_EXT)?;
    out.extend_from_slice(&(terms.count() as u32).to_be_bytes())?;
    put_items(out, terms)?;
    out.push(NIL_EXT)?;
    Ok(())
}

#[cycle(put)]
fn put_items(out: &mut Vec<u8>, terms: &Terms) -> Result<(), AllocError>
    ensures added { OnOk result (out.new.items ≡ out.old.items ++ written_all terms.now) }
    ensures limits { OnOk result (AreTerms terms.now) }
{
    for item in &terms.items {
        put_term(out, item)?;
    }
    Ok(())
}

fn put_arity(out: &mut Vec<u8>, arity: usize) -> Result<(), AllocError>
    requires { arity < 2 ^ 32 }
    ensures { OnOk result (out.new.items ≡ out.old.items ++ written_arity arity) }
{
    if arity < 256 {
        out.extend_from_slice(&[SMALL_TUPLE_EXT, arity as u8])?;
        return Ok(());
    }
    out.push(LARGE_TUPLE_EXT)?;
    out.extend_from_slice(&(arity as u32).to_be_bytes())?;
    Ok(())
}

fn put_integer(out: &mut Vec<u8>, number: i64) -> Result<(), AllocError>
    ensures { OnOk result (out.new.items ≡ out.old.items ++ written_int number) }
{
    match form_of(number) {
        IntegerForm::Byte(byte) => out.extend_from_slice(&[SMALL_INTEGER_EXT, byte])?,
        IntegerForm::Word(word) => {
            out.push(INTEGER_EXT)?;
            out.extend_from_slice(&word.cast_unsigned().to_be_bytes())?;
        }
        IntegerForm::Big { sign, magnitude } => {
            out.extend_from_slice(&[SMALL_BIG_EXT, digit_count(magnitude), sign])?;
            put_digits(out, magnitude)?;
        }
    }
    Ok(())
}

#[tactic(auto, using(crate::proofs::Names::name_fits))]
fn put_name(out: &mut Vec<u8>, name: &AtomName) -> Result<(), AllocError>
    ensures added { OnOk result (out.new.items ≡ out.old.items ++ written_name (encode_utf8_all name.now)) }
    ensures limits { OnOk result (IsName name.now) }
{
    let text = name.as_str().as_bytes();
    if text.len() < 256 {
        out.extend_from_slice(&[SMALL_ATOM_UTF8_EXT, text.len() as u8])?;
        out.extend_from_slice(text)?;
        return Ok(());
    }
    out.push(ATOM_UTF8_EXT)?;
    out.extend_from_slice(&(text.len() as u16).to_be_bytes())?;
    out.extend_from_slice(text)?;
    Ok(())
}

fn put_binary(out: &mut Vec<u8>, octets: &Octets) -> Result<(), AllocError>
    ensures added { OnOk result (out.new.items ≡ out.old.items ++ written (bin octets.now)) }
    ensures limits { OnOk result (length octets.now ≤ MAX_ITEMS) }
{
    let bytes = octets.as_slice();
    out.push(BINARY_EXT)?;
    out.extend_from_slice(&(bytes.len() as u32).to_be_bytes())?;
    out.extend_from_slice(bytes)?;
    Ok(())
}
