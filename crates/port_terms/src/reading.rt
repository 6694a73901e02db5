ghost use Rattle.std.specs.Prelude.{◌≡◌, ◌≢◌, ◌≤◌, length, Ok, Err, IfOk, IfErr};
ghost use Rattle.port_terms.specs.declared.values.TheConstants.{MAX_ITEMS};
ghost use Rattle.port_terms.specs.declared.faults.TermFault.{TermFault};
ghost use Rattle.port_terms.specs.declared.faults.TermFault.TheVariants.{NoMemory};
ghost use Rattle.port_terms.specs.Tree.{Tree};
ghost use Rattle.port_terms.specs.View.{tree, trees};
ghost use Rattle.port_terms.specs.Spelling.{IsExternal};
ghost use Rattle.port_terms.specs.Faults.{IsFirstFault};
ghost use Rattle.port_terms.specs.Reading.{Gives, tag_of as tag_with_number, small_integer_at, integer_at, small_big_at, utf8_atom_at, small_utf8_atom_at, large_utf8_atom_at, latin1_atom_at, small_latin1_atom_at, large_latin1_atom_at, items_at, forest_at, tuple_at, small_tuple_at, large_tuple_at, list_at, string_at, binary_at, body_at, term_at, whole_at, reading};

use crate::faults::TermFault;
use crate::fields::{Input, integers, latin1_name, utf8_name};
use crate::integers::signed;
use crate::tags::{Tag, VERSION, tag_of};
use crate::values::{MAX_DEPTH, Octets, Term, Terms};
use std::alloc::Global;

impl Input {
    #[tactic(auto, unfolding(crate::specs::Reading::small_integer_at))]
    fn small_integer(self, bytes: &[u8]) -> Result<(Term, &[u8]), TermFault>
        ensures { Gives (λ x. (tree x.0, x.1.now)) result (small_integer_at self.size bytes.now) }
    {
        let (number, rest) = self.byte(bytes)?;
        Ok((Term::Int(i64::from(number)), rest))
    }

    #[tactic(auto, unfolding(crate::specs::Reading::integer_at))]
    fn integer(self, bytes: &[u8]) -> Result<(Term, &[u8]), TermFault>
        ensures { Gives (λ x. (tree x.0, x.1.now)) result (integer_at self.size bytes.now) }
    {
        let (number, rest) = self.number32(bytes)?;
        Ok((Term::Int(i64::from(number.cast_signed())), rest))
    }

    #[tactic(auto, unfolding(crate::specs::Reading::small_big_at))]
    fn small_big(self, at: u64, bytes: &[u8]) -> Result<(Term, &[u8]), TermFault>
        ensures { Gives (λ x. (tree x.0, x.1.now)) result (small_big_at at self.size bytes.now) }
    {
        let (n, rest) = self.byte(bytes)?;
        let (sign, rest) = self.byte(rest)?;
        let (digits, rest) = self.front(n as usize, rest)?;
        match signed(sign, digits) {
            Some(number) => Ok((Term::Int(number), rest)),
            None => Err(TermFault::TooBig { at }),
        }
    }

    #[tactic(auto, unfolding(crate::specs::Reading::utf8_atom_at))]
    fn utf8_atom(self, at: u64, n: usize, bytes: &[u8]) -> Result<(Term, &[u8]), TermFault>
        ensures { Gives (λ x. (tree x.0, x.1.now)) result (utf8_atom_at at n self.size bytes.now) }
    {
        let (text, rest) = self.front(n, bytes)?;
        let name = utf8_name(self.alloc, at, text)?;
        Ok((Term::Atom(name), rest))
    }

    #[tactic(auto, unfolding(crate::specs::Reading::latin1_atom_at))]
    fn latin1_atom(self, at: u64, n: usize, bytes: &[u8]) -> Result<(Term, &[u8]), TermFault>
        ensures { Gives (λ x. (tree x.0, x.1.now)) result (latin1_atom_at at n self.size bytes.now) }
    {
        let (text, rest) = self.front(n, bytes)?;
        let name = latin1_name(self.alloc, at, text)?;
        Ok((Term::Atom(name), rest))
    }

    fn small_utf8_atom(self, at: u64, bytes: &[u8]) -> Result<(Term, &[u8]), TermFault>
        ensures { Gives (λ x. (tree x.0, x.1.now)) result (small_utf8_atom_at at self.size bytes.now) }
    {
        let (n, rest) = self.byte(bytes)?;
        self.utf8_atom(at, n as usize, rest)
    }

    fn large_utf8_atom(self, at: u64, bytes: &[u8]) -> Result<(Term, &[u8]), TermFault>
        ensures { Gives (λ x. (tree x.0, x.1.now)) result (large_utf8_atom_at at self.size bytes.now) }
    {
        let (n, rest) = self.number16(bytes)?;
        self.utf8_atom(at, n as usize, rest)
    }

    fn small_latin1_atom(self, at: u64, bytes: &[u8]) -> Result<(Term, &[u8]), TermFault>
        ensures { Gives (λ x. (tree x.0, x.1.now)) result (small_latin1_atom_at at self.size bytes.now) }
    {
        let (n, rest) = self.byte(bytes)?;
        self.latin1_atom(at, n as usize, rest)
    }

    fn large_latin1_atom(self, at: u64, bytes: &[u8]) -> Result<(Term, &[u8]), TermFault>
        ensures { Gives (λ x. (tree x.0, x.1.now)) result (large_latin1_atom_at at self.size bytes.now) }
    {
        let (n, rest) = self.number16(bytes)?;
        self.latin1_atom(at, n as usize, rest)
    }

    /// A list of bytes, whose items have so many levels left.
    #[tactic(auto, unfolding(crate::specs::Reading::string_at))]
    fn string(self, levels: u32, at: u64, bytes: &[u8]) -> Result<(Term, &[u8]), TermFault>
        ensures { Gives (λ x. (tree x.0, x.1.now)) result (string_at levels at self.size bytes.now) }
    {
        let (n, rest) = self.number16(bytes)?;
        if levels == 0 && n > 0 {
            return Err(TermFault::TooDeep { at });
        }
        let (front, rest) = self.front(n as usize, rest)?;
        Ok((Term::List(integers(self.alloc, front)?), rest))
    }

    #[tactic(auto, unfolding(crate::specs::Reading::binary_at))]
    fn binary(self, at: u64, bytes: &[u8]) -> Result<(Term, &[u8]), TermFault>
        ensures { Gives (λ x. (tree x.0, x.1.now)) result (binary_at at self.size bytes.now) }
    {
        let (n, rest) = self.count(at, bytes)?;
        let (front, rest) = self.front(n, rest)?;
        let bytes = Vec::from_slice(self.alloc, front)?;
        Ok((Term::Bin(Octets::new(bytes)), rest))
    }

    /// So many terms. Room is taken for those that are there, and not for what a length tells.
    #[cycle(term)]
    fn items(self, levels: u32, n: usize, bytes: &[u8]) -> Result<(Vec<Term>, &[u8]), TermFault>
        ensures gives { Gives (λ x. (trees x.0.items, x.1.now)) result (items_at (term_at self.size levels) n bytes.now) }
        ensures len { IfOk result (λ x. length x.0.items ≡ n) }
    {
        let mut items = Vec::new(self.alloc);
        let mut rest = bytes;
        for _ in 0..n {
            let (item, after) = self.term(levels, rest)?;
            items.push(item)?;
            rest = after;
        }
        Ok((items, rest))
    }

    #[cycle(term)]
    #[tactic(auto, unfolding(crate::specs::Reading::forest_at))]
    fn terms(self, levels: u32, n: usize, bytes: &[u8]) -> Result<(Terms, &[u8]), TermFault>
        requires { n ≤ MAX_ITEMS }
        ensures { Gives (λ x. (x.0, x.1.now)) result (forest_at (term_at self.size levels) n bytes.now) }
    {
        let (items, rest) = self.items(levels, n, bytes)?;
        Ok((Terms::new(items), rest))
    }

    #[cycle(term)]
    #[tactic(auto, unfolding(crate::specs::Reading::tuple_at))]
    fn tuple(self, levels: u32, n: usize, bytes: &[u8]) -> Result<(Term, &[u8]), TermFault>
        requires { n ≤ MAX_ITEMS }
        ensures { Gives (λ x. (tree x.0, x.1.now)) result (tuple_at (term_at self.size levels) n bytes.now) }
    {
        let (items, rest) = self.terms(levels, n, bytes)?;
        Ok((Term::Tuple(items), rest))
    }

    #[cycle(term)]
    fn small_tuple(self, levels: u32, bytes: &[u8]) -> Result<(Term, &[u8]), TermFault>
        ensures { Gives (λ x. (tree x.0, x.1.now)) result (small_tuple_at (term_at self.size levels) self.size bytes.now) }
    {
        let (n, rest) = self.byte(bytes)?;
        self.tuple(levels, n as usize, rest)
    }

    #[cycle(term)]
    fn large_tuple(self, levels: u32, at: u64, bytes: &[u8]) -> Result<(Term, &[u8]), TermFault>
        ensures { Gives (λ x. (tree x.0, x.1.now)) result (large_tuple_at (term_at self.size levels) at self.size bytes.now) }
    {
        let (n, rest) = self.count(at, bytes)?;
        self.tuple(levels, n, rest)
    }

    #[cycle(term)]
    #[tactic(auto, unfolding(crate::specs::Reading::list_at))]
    fn list(self, levels: u32, at: u64, bytes: &[u8]) -> Result<(Term, &[u8]), TermFault>
        ensures { Gives (λ x. (tree x.0, x.1.now)) result (list_at (term_at self.size levels) at self.size bytes.now) }
    {
        let (n, rest) = self.count(at, bytes)?;
        let (items, rest) = self.terms(levels, n, rest)?;
        let (_, rest) = self.tail(rest)?;
        Ok((Term::List(items), rest))
    }

    /// What stands behind the tag at `at`; its items have so many levels left.
    #[cycle(term)]
    #[tactic(auto, unfolding(crate::specs::Reading::body_at))]
    fn body(
        self,
        levels: u32,
        at: u64,
        number: u8,
        bytes: &[u8],
    ) -> Result<(Term, &[u8]), TermFault>
        ensures { Gives (λ x. (tree x.0, x.1.now)) result (body_at (tag_with_number number) levels (term_at self.size levels) at number self.size bytes.now) }
    {
        match tag_of(number) {
            Tag::SmallInteger => self.small_integer(bytes),
            Tag::Integer => self.integer(bytes),
            Tag::SmallBig => self.small_big(at, bytes),
            Tag::SmallAtomUtf8 => self.small_utf8_atom(at, bytes),
            Tag::AtomUtf8 => self.large_utf8_atom(at, bytes),
            Tag::SmallAtom => self.small_latin1_atom(at, bytes),
            Tag::Atom => self.large_latin1_atom(at, bytes),
            Tag::SmallTuple => self.small_tuple(levels, bytes),
            Tag::LargeTuple => self.large_tuple(levels, at, bytes),
            Tag::Nil => Ok((Term::List(Terms::new(Vec::new(self.alloc))), bytes)),
            Tag::String => self.string(levels, at, bytes),
            Tag::List => self.list(levels, at, bytes),
            Tag::Binary => self.binary(at, bytes),
            Tag::Unserved => Err(TermFault::NotServed { at, tag: number }),
            Tag::Unknown => Err(TermFault::BadTag { at, tag: number }),
        }
    }

    /// A term of at most so many levels.
    #[cycle(term)]
    #[tactic(auto, using(crate::proofs::Levels::term_below), unfolding(crate::specs::Reading::term_at))]
    fn term(self, levels: u32, bytes: &[u8]) -> Result<(Term, &[u8]), TermFault>
        ensures { Gives (λ x. (tree x.0, x.1.now)) result (term_at self.size levels bytes.now) }
    {
        let at = self.place(bytes);
        if levels == 0 {
            return Err(TermFault::TooDeep { at });
        }
        let (tag, rest) = self.byte(bytes)?;
        self.body(levels - 1, at, tag, rest)
    }

    /// One term, and nothing after it.
    #[tactic(auto, unfolding(crate::specs::Reading::whole_at))]
    fn whole(self, bytes: &[u8]) -> Result<Term, TermFault>
        ensures { Gives tree result (whole_at self.size bytes.now) }
    {
        let (term, rest) = self.term(MAX_DEPTH, bytes)?;
        if !rest.is_empty() {
            return Err(TermFault::Trailing {
                at: self.place(rest),
            });
        }
        Ok(term)
    }

    /// All of the input: the version, and one term.
    #[tactic(auto, unfolding(crate::specs::Reading::reading))]
    fn external(self, bytes: &[u8]) -> Result<Term, TermFault>
        requires { self.size ≡ length bytes.now }
        ensures { Gives tree result (reading bytes.now) }
    {
        let (version, rest) = self.byte(bytes)?;
        if version != VERSION {
            return Err(TermFault::BadTag {
                at: 0,
                tag: version,
            });
        }
        self.whole(rest)
    }
}

/// The term with this external form, if the bytes are one.
///
/// The first fault from the left is told. Reading goes no deeper than a term may be, takes time linear in the bytes,
/// and takes memory for what is there, whatever a length tells.
pub fn decode(alloc: Global, bytes: &[u8]) -> Result<Term, TermFault>
    // What is read is spelled so.
    ensures found { IfOk result (λ t. IsExternal (tree t) bytes.now) }
    // What is spelled so is read, unless memory runs out.
    ensures only { (t : Tree) → IsExternal t bytes.now → Gives tree result (Ok t) }
    // A fault that is told is the first one.
    ensures first { IfErr result (λ e. e ≢ NoMemory → IsFirstFault bytes.now e) }
    // The first fault is told, unless memory runs out.
    ensures fault { (e : TermFault) → IsFirstFault bytes.now e → Gives tree result (Err e) }
{
    let input = Input {
        alloc,
        size: bytes.len(),
    };
    input.external(bytes)
}
