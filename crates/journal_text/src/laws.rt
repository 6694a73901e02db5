ghost use Rattle.std.specs.Prelude.{◌≡◌, true};
ghost use Rattle.journal_text.specs.Books.{BookView, is_book, journal_text};

/// A law of the definitions alone: two books with one text are one book.
pub fn each_book_has_one_text()
    ensures { (a b : BookView) → is_book a ≡ true → is_book b ≡ true → journal_text 1 a ≡ journal_text 1 b → a ≡ b }
{}
