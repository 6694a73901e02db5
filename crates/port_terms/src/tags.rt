//! The tags of the External Term Format.

ghost use Rattle.std.specs.Prelude.{◌≡◌};
ghost use Rattle.port_terms.specs.Reading.{tag_of as tag_with_number};

pub(crate) const SMALL_INTEGER_EXT: u8 = 97;

pub(crate) const INTEGER_EXT: u8 = 98;

pub(crate) const ATOM_EXT: u8 = 100;

pub(crate) const SMALL_TUPLE_EXT: u8 = 104;

pub(crate) const LARGE_TUPLE_EXT: u8 = 105;

pub(crate) const NIL_EXT: u8 = 106;

pub(crate) const STRING_EXT: u8 = 107;

pub(crate) const LIST_EXT: u8 = 108;

pub(crate) const BINARY_EXT: u8 = 109;

pub(crate) const SMALL_BIG_EXT: u8 = 110;

pub(crate) const SMALL_ATOM_EXT: u8 = 115;

pub(crate) const ATOM_UTF8_EXT: u8 = 118;

pub(crate) const SMALL_ATOM_UTF8_EXT: u8 = 119;

/// The byte in front of a term: the version of the format.
pub(crate) const VERSION: u8 = 131;

/// A tag, by its name in the format.
#[derive(Clone, Copy, Debug, PartialEq, Eq)]
pub enum Tag {
    SmallInteger,
    Integer,
    SmallBig,
    SmallAtomUtf8,
    AtomUtf8,
    SmallAtom,
    Atom,
    SmallTuple,
    LargeTuple,
    Nil,
    String,
    List,
    Binary,
    /// A tag of the format that is not served.
    Unserved,
    /// No tag of the format.
    Unknown,
}

/// The tag with that number.
pub(crate) fn tag_of(number: u8) -> Tag
    ensures { result ≡ tag_with_number number }
{
    match number {
        SMALL_INTEGER_EXT => Tag::SmallInteger,
        INTEGER_EXT => Tag::Integer,
        ATOM_EXT => Tag::Atom,
        SMALL_TUPLE_EXT => Tag::SmallTuple,
        LARGE_TUPLE_EXT => Tag::LargeTuple,
        NIL_EXT => Tag::Nil,
        STRING_EXT => Tag::String,
        LIST_EXT => Tag::List,
        BINARY_EXT => Tag::Binary,
        SMALL_BIG_EXT => Tag::SmallBig,
        SMALL_ATOM_EXT => Tag::SmallAtom,
        ATOM_UTF8_EXT => Tag::AtomUtf8,
        SMALL_ATOM_UTF8_EXT => Tag::SmallAtomUtf8,
        70
        | 77
        | 80
        | 82
        | 88
        | 89
        | 90
        | 99
        | 101
        | 102
        | 103
        | 111
        | 112
        | 113
        | 114
        | 116
        | 117
        | 120
        | 121 => Tag::Unserved,
        _ => Tag::Unknown,
    }
}
