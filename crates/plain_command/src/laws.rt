//! What the contract of a replay says of a journal whose histories are legal, as the contract of a function that does nothing.
ghost use Rattle.plain_command.specs.Laws.{LegalBooksAreDone};

use history_replay::nothing_is_told_of_legal_ports_alone;

/// A replay of a book that is there, whose ports' histories keep every law and are finished, ends with `Done`, or memory was wanting.
pub fn legal_books_are_done()
    ensures { LegalBooksAreDone }
{
    nothing_is_told_of_legal_ports_alone();
}
