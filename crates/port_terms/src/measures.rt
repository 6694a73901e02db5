ghost use Rattle.std.specs.Prelude.{◌≡◌, ◌+◌, ◌-◌, ◌^◌, ◌<◌, min, length};
ghost use Rattle.port_terms.specs.Tree.{tuple, list, deepest, depth};
ghost use Rattle.port_terms.specs.View.{tree};
ghost use Rattle.port_terms.specs.Written.{external, written, written_all, written_int, written_name};

use crate::integers::{IntegerForm, digit_count, form_of};
use crate::strings::is_string;
use crate::values::{Term, Terms};

/// The depth of a term: 1 for one without items, and one more than its deepest item otherwise. It stops at the greatest `u64`.
#[cycle(depth)]
pub fn term_depth(term: &Term) -> u64
    ensures { result ≡ min (depth (tree term.now)) (2 ^ 64 - 1) }
{
    match term {
        Term::Int(_) | Term::Atom(_) | Term::Bin(_) => 1,
        Term::Tuple(items) | Term::List(items) => items_depth(items).saturating_add(1),
    }
}

#[cycle(depth)]
fn items_depth(terms: &Terms) -> u64
    ensures { result ≡ min (deepest terms.now) (2 ^ 64 - 1) }
{
    let mut deepest = 0;
    for item in &terms.items {
        deepest = term_depth(item).max(deepest);
    }
    deepest
}

/// The length of a term's external form. It stops at the greatest `u64`.
pub fn term_size(term: &Term) -> u64
    ensures { result ≡ min (length (external (tree term.now))) (2 ^ 64 - 1) }
{
    spelling_size(term).saturating_add(1)
}

#[cycle(size)]
fn spelling_size(term: &Term) -> u64
    ensures { result ≡ min (length (written (tree term.now))) (2 ^ 64 - 1) }
{
    match term {
        Term::Int(number) => integer_size(*number),
        Term::Atom(name) => name_size(name.as_str()),
        Term::Bin(octets) => 5 + octets.as_slice().len() as u64,
        Term::Tuple(items) => tuple_size(items),
        Term::List(items) => list_size(items),
    }
}

#[cycle(size)]
fn tuple_size(terms: &Terms) -> u64
    ensures { result ≡ min (length (written (tuple terms.now))) (2 ^ 64 - 1) }
{
    let head = if terms.count() < 256 { 2 } else { 5 };
    items_size(terms).saturating_add(head)
}

#[cycle(size)]
fn list_size(terms: &Terms) -> u64
    ensures { result ≡ min (length (written (list terms.now))) (2 ^ 64 - 1) }
{
    if terms.count() == 0 {
        1
    } else if is_string(terms) {
        3 + terms.count() as u64
    } else {
        items_size(terms).saturating_add(6)
    }
}

#[cycle(size)]
fn items_size(terms: &Terms) -> u64
    ensures { result ≡ min (length (written_all terms.now)) (2 ^ 64 - 1) }
{
    let mut size = 0u64;
    for item in &terms.items {
        size = size.saturating_add(spelling_size(item));
    }
    size
}

fn integer_size(number: i64) -> u64
    ensures { result ≡ length (written_int number) }
{
    match form_of(number) {
        IntegerForm::Byte(_) => 2,
        IntegerForm::Word(_) => 5,
        IntegerForm::Big { magnitude, .. } => 3 + u64::from(digit_count(magnitude)),
    }
}

fn name_size(text: &str) -> u64
    ensures { result ≡ min (length (written_name text.now)) (2 ^ 64 - 1) }
{
    let head = if text.len() < 256 { 2 } else { 3 };
    (text.len() as u64).saturating_add(head)
}
