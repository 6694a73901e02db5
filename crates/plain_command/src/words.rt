ghost use Rattle.std.specs.Prelude.{◌≡◌, map, string_bytes};
ghost use Rattle.std.specs.Result.{result_map_both};
ghost use Rattle.plain_command.specs.Words.{asked, file_named, is_plain, told};

use program_io::may_name_file;

/// What the words of a command ask for that runs nothing.
#[derive(Clone, Copy)]
pub(crate) enum PlainWords<'a> {
    /// How much the script of this name has.
    Check { script: &'a str },
    /// Whether the histories of the journal of this name are legal.
    Replay { journal: &'a str },
}

/// Whether the words are for `plain_command`: the first one is `check` or `replay`. They exclude the program's own name.
pub fn is_plain(words: &[String]) -> bool
    ensures { result ≡ is_plain (map (λ w. string_bytes w) words.now) }
{
    match words {
        [word, ..] => word.as_str() == "check" || word.as_str() == "replay",
        [] => false,
    }
}

/// What the words ask for, or the first word, from 1, at which no accepted list of words goes on.
pub(crate) fn plain_words(words: &[String]) -> Result<PlainWords<'_>, u32>
    ensures { told result ≡ asked (map (λ w. string_bytes w) words.now) }
{
    match words {
        [first, rest @ ..] if first.as_str() == "check" => Ok(PlainWords::Check {
            script: file_named(rest)?,
        }),
        [first, rest @ ..] if first.as_str() == "replay" => Ok(PlainWords::Replay {
            journal: file_named(rest)?,
        }),
        _ => Err(1),
    }
}

/// The name of a file, behind which nothing stands.
fn file_named(words: &[String]) -> Result<&str, u32>
    ensures { result_map_both (λ name. name.now) (λ at. at) result ≡ file_named (map (λ w. string_bytes w) words.now) }
{
    let [name, rest @ ..] = words else {
        return Err(2);
    };
    if !may_name_file(name.as_str()) {
        return Err(2);
    }
    if !rest.is_empty() {
        return Err(3);
    }
    Ok(name.as_str())
}
