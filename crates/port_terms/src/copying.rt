ghost use Rattle.std.specs.Prelude.{◌≡◌, ◌≤◌, ◌⊎◌, ℕ, List, IfOk, slice_index, ◌<◌, ◌^◌};
ghost use Rattle.port_terms.specs.declared.values.TheConstants.{MAX_DEPTH};
ghost use Rattle.port_terms.specs.declared.faults.TermFault.{TermFault};
ghost use Rattle.port_terms.specs.Tree.{Tree, depth};
ghost use Rattle.port_terms.specs.View.{tree};
ghost use Rattle.port_terms.specs.Spelling.{IsExternal};
ghost use Rattle.port_terms.specs.Faults.{IsFirstFault};

use crate::faults::TermFault;
use crate::reading::decode;
use crate::values::Term;
use crate::writing::encode;
use no_memory::NoMemory;
use std::alloc::Global;

/// A copy of a term, made from its external form.
///
/// This is the round trip: what `encode` writes of a term, `decode` reads as the same term, and nothing but memory
/// can stop either.
pub fn term_copy(alloc: Global, term: &Term) -> Result<Term, NoMemory>
    requires { depth (tree term.now) ≤ MAX_DEPTH }
    ensures { IfOk result (λ copy. tree copy ≡ tree term.now) }
{
    let bytes = encode(alloc, term)?;
    match decode(alloc, &bytes) {
        Ok(copy) => Ok(copy),
        Err(TermFault::NoMemory) => Err(NoMemory),
        Err(_) => unreachable!(),
    }
}

/// A law of the definitions alone: bytes are the external form of one term, or have one first fault, and not both.
pub fn each_input_has_one_answer()
    ensures one_term { (bytes : List ℕ) (t u : Tree) → IsExternal t bytes → IsExternal u bytes → t ≡ u }
    ensures one_fault { (bytes : List ℕ) (e f : TermFault) → IsFirstFault bytes e → IsFirstFault bytes f → e ≡ f }
    ensures not_both { (bytes : List ℕ) (t : Tree) (e : TermFault) → IsExternal t bytes → IsFirstFault bytes e → ⊥ }
    ensures one_of_both { (bytes : List ℕ) → ((i : ℕ) → slice_index bytes i < 2 ^ 8) → ((t : Tree) × IsExternal t bytes) ⊎ ((e : TermFault) × IsFirstFault bytes e) }
{}
