ghost use Rattle.std.specs.Prelude.{◌≡◌, ◌<◌, ◌≤◌, length, Err, IfOk, IfErr};
ghost use Rattle.std.specs.Str.{chars};
ghost use Rattle.port_terms.specs.declared.values.TheConstants.{MAX_ITEMS, MAX_NAME_CHARS};
ghost use Rattle.port_terms.specs.Tree.{forest};
ghost use Rattle.port_terms.specs.View.{trees};
ghost use Rattle.port_terms.specs.IoView.{io_trees};

use crate::faults::AtomFault;
use crate::io_lists::{IoList, IoParts};
use crate::values::{AtomName, MAX_NAME_CHARS, Octets, Term, Terms};
use std::alloc::Global;

/// The bytes as the content of a binary.
pub fn octets(bytes: Vec<u8>) -> Octets
    requires { length bytes.items ≤ MAX_ITEMS }
    ensures { result ≡ bytes.items }
{
    Octets::new(bytes)
}

/// The terms as the items of a tuple or a list.
pub fn terms(items: Vec<Term>) -> Terms
    requires { length items.items ≤ MAX_ITEMS }
    ensures { result ≡ forest (trees items.items) }
{
    Terms::new(items)
}

/// The I/O lists as the items of one.
pub fn parts(items: Vec<IoList>) -> IoParts
    requires { length items.items ≤ MAX_ITEMS }
    ensures { result ≡ forest (io_trees items.items) }
{
    IoParts::new(items)
}

/// The text as the name of an atom. The name is seen as its characters.
pub fn atom(alloc: Global, text: &str) -> Result<AtomName, AtomFault>
    ensures name { IfOk result (λ name. name ≡ chars text.now) }
    // A text is too long exactly where it has more than 255 characters, also where there is no memory.
    ensures too_long { MAX_NAME_CHARS < length (chars text.now) → result ≡ Err (AtomFault.TooLong (length (chars text.now))) }
    ensures fits { length (chars text.now) ≤ MAX_NAME_CHARS → IfErr result (λ e. e ≡ AtomFault.NoMemory) }
{
    let chars = char_count(text);
    if chars > MAX_NAME_CHARS {
        return Err(AtomFault::TooLong {
            chars: chars as u64,
        });
    }
    Ok(AtomName::new(String::from_str(alloc, text)?))
}

fn char_count(text: &str) -> usize
    ensures { result ≡ length (chars text.now) }
{
    text.chars().count()
}
