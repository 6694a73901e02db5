//! Where the bytes that are left of a line stand in the script.

ghost use Rattle.std.specs.Prelude.{◌≡◌, IfOk};
ghost use Rattle.std.specs.Cow.{cow_slice_items};
ghost use Rattle.script_text.specs.Borrowed.{Borrows};
ghost use Rattle.gateway_script.specs.Source.{EndsAt};

use no_memory::NoMemory;
use script_plan::Piece;
use std::borrow::CowSlice;

/// The text of a script, and the place in it at which a line ends, in bytes from 0.
#[derive(Clone, Copy)]
pub(crate) struct LineSource<'a> {
    pub text: &'a Piece,
    pub end: usize,
}

impl LineSource<'_> {
    /// The bytes that were read in front of these, which are left of the line. Where they are borrowed they are shared with the text,
    /// and none is copied.
    pub(crate) fn piece_of(self, bytes: &[u8], content: CowSlice<'_, u8>) -> Result<Piece, NoMemory>
        requires ends { EndsAt self.text.now self.end bytes.now }
        requires borrowed { Borrows content bytes.now }
        ensures { IfOk result (λ piece. piece ≡ cow_slice_items content.entry) }
    {
        match content {
            CowSlice::Borrowed(content) => {
                let start = self.end - bytes.len() + 1;
                self.text.part(start, start + content.len())
            }
            CowSlice::Owned(content) => Piece::of_vec(content),
        }
    }
}
