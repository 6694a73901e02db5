ghost use Rattle.std.specs.Prelude.{◌≡◌, ◌<◌, ◌≤◌, ◌^◌, map, string_bytes, IfOk, Some, None, true, if◌then◌else◌};
ghost use Rattle.std.specs.List.{list_all};
ghost use Rattle.std.specs.Option.{SomeIff};
ghost use Rattle.script_text.specs.Tokens.{is_digit, value_of};
ghost use Rattle.script_input.specs.Words.{asked, is_count, is_load_number, is_number, source_of, told, with_load_number, with_schedulers, with_script, with_workers};

use program_io::may_name_file;

/// How many schedulers run a script where nothing is said.
const SCHEDULERS: u32 = 4;

/// How many workers do its jobs where nothing is said.
const WORKERS: u32 = 2;

const MAX_SCHEDULERS: u32 = 16;

const MAX_WORKERS: u32 = 8;

/// Where the script of a run comes from.
#[derive(Clone, Copy)]
pub enum RunSource<'a> {
    /// The file of this name.
    File { name: &'a str },
    /// The load generator, which makes it of this number.
    Load { number: u64 },
}

/// What the words of a run ask for: where the script comes from, and how many schedulers and workers run it.
#[derive(Clone, Copy)]
pub struct RunWords<'a> {
    pub source: RunSource<'a>,
    pub schedulers: u32,
    pub workers: u32,
}

/// What the words ask for, `run SCRIPT [SCHEDULERS [WORKERS]]` or `load NUMBER [SCHEDULERS [WORKERS]]`. They exclude the program's own name. Otherwise the first word,
/// from 1, at which no accepted list of words goes on; one that is missing is told as the place behind the last.
///
/// SCRIPT isn't empty and doesn't begin with `-`. NUMBER has 64 bits. SCHEDULERS are 1 to 16, and 4 where nothing is said; WORKERS are 1 to 8, and 2 where nothing is
/// said. Each number is written with 1 to 20 decimal digits.
pub fn run_words(words: &[String]) -> Result<RunWords<'_>, u32>
    ensures asked { told result ≡ asked (map (λ w. string_bytes w) words.now) }
    ensures schedulers { IfOk result (λ w. (1 ≤ w.schedulers) × (w.schedulers ≤ 16)) }
    ensures workers { IfOk result (λ w. (1 ≤ w.workers) × (w.workers ≤ 8)) }
{
    match words {
        [first, rest @ ..] if first.as_str() == "run" => with_script(rest),
        [first, rest @ ..] if first.as_str() == "load" => with_load_number(rest),
        _ => Err(1),
    }
}

fn with_script(words: &[String]) -> Result<RunWords<'_>, u32>
    ensures asked { told result ≡ with_script (map (λ w. string_bytes w) words.now) }
    ensures schedulers { IfOk result (λ w. (1 ≤ w.schedulers) × (w.schedulers ≤ 16)) }
    ensures workers { IfOk result (λ w. (1 ≤ w.workers) × (w.workers ≤ 8)) }
{
    match words {
        [script, rest @ ..] if may_name_file(script.as_str()) => {
            let name = script.as_str();
            with_schedulers(RunSource::File { name }, rest)
        }
        _ => Err(2),
    }
}

fn with_load_number(words: &[String]) -> Result<RunWords<'_>, u32>
    ensures asked { told result ≡ with_load_number (map (λ w. string_bytes w) words.now) }
    ensures schedulers { IfOk result (λ w. (1 ≤ w.schedulers) × (w.schedulers ≤ 16)) }
    ensures workers { IfOk result (λ w. (1 ≤ w.workers) × (w.workers ≤ 8)) }
{
    let [word, rest @ ..] = words else {
        return Err(2);
    };
    match load_number(word.as_bytes()) {
        Some(number) => with_schedulers(RunSource::Load { number }, rest),
        None => Err(2),
    }
}

fn with_schedulers<'a>(source: RunSource<'a>, words: &[String]) -> Result<RunWords<'a>, u32>
    ensures asked { told result ≡ with_schedulers (source_of source.entry) (map (λ w. string_bytes w) words.now) }
    ensures schedulers { IfOk result (λ w. (1 ≤ w.schedulers) × (w.schedulers ≤ 16)) }
    ensures workers { IfOk result (λ w. (1 ≤ w.workers) × (w.workers ≤ 8)) }
{
    let [word, rest @ ..] = words else {
        return Ok(RunWords {
            source,
            schedulers: SCHEDULERS,
            workers: WORKERS,
        });
    };
    match count_up_to(MAX_SCHEDULERS, word.as_bytes()) {
        Some(schedulers) => with_workers(source, schedulers, rest),
        None => Err(3),
    }
}

fn with_workers<'a>(
    source: RunSource<'a>,
    schedulers: u32,
    words: &[String],
) -> Result<RunWords<'a>, u32>
    ensures asked { told result ≡ with_workers (source_of source.entry) schedulers (map (λ w. string_bytes w) words.now) }
    ensures schedulers { IfOk result (λ w. w.schedulers ≡ schedulers) }
    ensures workers { IfOk result (λ w. (1 ≤ w.workers) × (w.workers ≤ 8)) }
{
    let [word, rest @ ..] = words else {
        return Ok(RunWords {
            source,
            schedulers,
            workers: WORKERS,
        });
    };
    let Some(workers) = count_up_to(MAX_WORKERS, word.as_bytes()) else {
        return Err(4);
    };
    if !rest.is_empty() {
        return Err(5);
    }
    Ok(RunWords {
        source,
        schedulers,
        workers,
    })
}

/// Whether a word is 1 to 20 decimal digits.
fn is_number(word: &[u8]) -> bool
    ensures { result ≡ is_number word.now }
{
    are_digits(word) && 1 <= word.len() && word.len() <= 20
}

fn are_digits(word: &[u8]) -> bool
    ensures { result ≡ list_all is_digit word.now }
{
    word.iter().all(|byte| byte.is_ascii_digit())
}

/// The number that decimal digits spell, if it has 64 bits.
fn number_of(digits: &[u8]) -> Option<u64>
    requires { list_all is_digit digits.now ≡ true }
    ensures { SomeIff result (value_of digits.now < 2 ^ 64) (value_of digits.now) }
{
    let mut number = 0u64;
    for byte in digits {
        let digit = u64::from(*byte - b'0');
        number = number.checked_mul(10)?.checked_add(digit)?;
    }
    Some(number)
}

/// The number of a load that a word spells, if it has 64 bits.
fn load_number(word: &[u8]) -> Option<u64>
    ensures { result ≡ (if is_load_number word.now then Some (value_of word.now) else None) }
{
    if is_number(word) {
        number_of(word)
    } else {
        None
    }
}

/// The number that a word spells, if it is one of 1 to `most`.
fn count_up_to(most: u32, word: &[u8]) -> Option<u32>
    ensures { result ≡ (if is_count most word.now then Some (value_of word.now) else None) }
{
    if !is_number(word) {
        return None;
    }
    let number = number_of(word)?;
    if 1 <= number && number <= u64::from(most) {
        Some(number as u32)
    } else {
        None
    }
}
