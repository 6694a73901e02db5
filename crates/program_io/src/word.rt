ghost use Rattle.std.specs.Prelude.{◌≡◌};
ghost use Rattle.program_io.specs.Word.{is_word};

/// Whether a word of the command line may name a file: it isn't empty, and doesn't begin with `-`.
pub fn may_name_file(word: &str) -> bool
    ensures { result ≡ is_word word.now }
{
    !word.is_empty() && !word.as_bytes().starts_with(b"-")
}
