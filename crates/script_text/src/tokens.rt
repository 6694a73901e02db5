//! The smallest parts of a line: bytes, gaps, numbers and names.

ghost use Rattle.std.specs.Prelude.{◌≡◌, ◌<◌, ◌^◌, ◌≤◌, ◌-◌, ℕ, List, Some, true, false, length, option_map, slice_index, IfSome, IsSomeAnd};
ghost use Rattle.std.specs.List.{list_all, take_while, prefix_len};
ghost use Rattle.std.specs.Option.{SomeIff};
ghost use Rattle.script_text.specs.Tokens.{is_digit, is_letter, is_name_byte, is_name, value_of, SpellsNumber};
ghost use Rattle.script_text.specs.InFront.{InFront};
ghost use Rattle.script_text.specs.Reading.{after, after_twice, behind, is_space, skip, number_at, digits_at, whole_at, signed as signed_integer, fits};

/// The most digits of a NUMBER.
const MAX_DIGITS: usize = 10;

/// The most bytes of a NAME.
const MAX_NAME: usize = 16;

/// What stands behind this byte, if it is the first one.
pub(crate) fn after(byte: u8, bytes: &[u8]) -> Option<&[u8]>
    ensures { option_map (λ rest. rest.now) result ≡ after byte bytes.now }
{
    match bytes {
        [first, rest @ ..] if *first == byte => Some(rest),
        _ => None,
    }
}

/// What stands behind two of this byte, if they are the first ones.
pub(crate) fn after_twice(byte: u8, bytes: &[u8]) -> Option<&[u8]>
    ensures { option_map (λ rest. rest.now) result ≡ after_twice byte bytes.now }
{
    after(byte, after(byte, bytes)?)
}

/// What stands behind the spaces in front of the bytes, of which there may be none.
pub fn skip_gap(bytes: &[u8]) -> &[u8]
    ensures { result.now ≡ skip bytes.now }
{
    &bytes[space_count(bytes)..]
}

/// The digits in front, and what stands behind them.
#[tactic(auto, using(crate::proofs::Fronts::front_passes))]
fn split_digits(bytes: &[u8]) -> (&[u8], &[u8])
    ensures digits { result.0.now ≡ take_while is_digit bytes.now }
    ensures rest { result.1.now ≡ behind is_digit bytes.now }
    ensures len { length result.0.now ≡ prefix_len is_digit bytes.now }
    ensures pass { list_all is_digit result.0.now ≡ true }
{
    bytes.split_at(digit_count(bytes))
}

/// The bytes of a name in front, and what stands behind them.
pub(crate) fn split_name(bytes: &[u8]) -> (&[u8], &[u8])
    ensures name { result.0.now ≡ take_while is_name_byte bytes.now }
    ensures rest { result.1.now ≡ behind is_name_byte bytes.now }
{
    bytes.split_at(name_len(bytes))
}

/// How many spaces stand in front.
fn space_count(bytes: &[u8]) -> usize
    ensures count { result ≡ prefix_len is_space bytes.now }
    ensures within { result ≤ length bytes.now }
{
    bytes.iter().take_while(|byte| is_space(**byte)).count()
}

/// How many digits stand in front.
fn digit_count(bytes: &[u8]) -> usize
    ensures count { result ≡ prefix_len is_digit bytes.now }
    ensures within { result ≤ length bytes.now }
{
    bytes.iter().take_while(|byte| is_digit(**byte)).count()
}

/// How many bytes that a name may have stand in front.
fn name_len(bytes: &[u8]) -> usize
    ensures count { result ≡ prefix_len is_name_byte bytes.now }
    ensures within { result ≤ length bytes.now }
{
    bytes.iter().take_while(|byte| is_name_byte(**byte)).count()
}

fn is_space(byte: u8) -> bool
    ensures { result ≡ is_space byte }
{
    byte == b' '
}

fn is_digit(byte: u8) -> bool
    ensures { result ≡ is_digit byte }
{
    byte.is_ascii_digit()
}

pub(crate) fn is_letter(byte: u8) -> bool
    ensures { result ≡ is_letter byte }
{
    byte.is_ascii_lowercase()
}

fn is_name_byte(byte: u8) -> bool
    ensures { result ≡ is_name_byte byte }
{
    is_letter(byte) || is_digit(byte) || byte == b'_'
}

/// Whether a text is a NAME.
pub(crate) fn is_name(text: &[u8]) -> bool
    ensures { result ≡ is_name text.now }
{
    begins_with_letter(text) && all_name_bytes(text) && text.len() <= MAX_NAME
}

fn begins_with_letter(text: &[u8]) -> bool
    ensures { result ≡ is_letter (slice_index text.now 0) }
{
    match text {
        [first, ..] => is_letter(*first),
        [] => false,
    }
}

fn all_name_bytes(text: &[u8]) -> bool
    ensures { result ≡ list_all is_name_byte text.now }
{
    text.iter().all(|byte| is_name_byte(*byte))
}

/// The number that decimal digits spell, if it has 64 bits.
fn number_of(digits: &[u8]) -> Option<u64>
    requires { list_all is_digit digits.now ≡ true }
    ensures { SomeIff result (value_of digits.now < 2 ^ 64) (value_of digits.now) }
{
    let mut number = 0u64;
    for byte in digits {
        let digit = u64::from(*byte - b'0');
        number = number.checked_mul(10)?.checked_add(digit)?;
    }
    Some(number)
}

/// The NUMBER in front of the bytes, and what stands behind it, which doesn't go on with a digit.
pub fn read_number(bytes: &[u8]) -> Option<(u64, &[u8])>
    // What is read is spelled so.
    ensures found { IfSome result (λ x. InFront SpellsNumber x.0 bytes.now x.1.now) }
    // All of its digits are read.
    ensures end { IfSome result (λ x. is_digit (slice_index x.1.now 0) ≡ false) }
    // What is spelled so is read.
    ensures only { (number : ℕ) (rest : List ℕ) → InFront SpellsNumber number bytes.now rest → is_digit (slice_index rest 0) ≡ false → IsSomeAnd result (λ x. (x.0 ≡ number) × (x.1.now ≡ rest)) }
    // It is what the definition reads there.
    ensures reads { option_map (λ x. (x.0, x.1.now)) result ≡ number_at bytes.now }
{
    number(bytes)
}

/// The NUMBER in front, and what stands behind it.
#[tactic(auto, using(crate::proofs::Values::number_fits))]
pub(crate) fn number(bytes: &[u8]) -> Option<(u64, &[u8])>
    ensures { option_map (λ x. (x.0, x.1.now)) result ≡ number_at bytes.now }
{
    let (digits, rest) = split_digits(bytes);
    if digits.is_empty() || digits.len() > MAX_DIGITS {
        return None;
    }
    Some((number_of(digits)?, rest))
}

/// The whole number of 64 bits in front, and what stands behind it.
#[tactic(auto, unfolding(crate::specs::Reading::whole_at))]
pub(crate) fn whole(bytes: &[u8]) -> Option<(i64, &[u8])>
    ensures { option_map (λ x. (x.0, x.1.now)) result ≡ whole_at bytes.now }
{
    match after(b'-', bytes) {
        Some(rest) => whole_behind_sign(true, rest),
        None => whole_behind_sign(false, bytes),
    }
}

fn whole_behind_sign(minus: bool, bytes: &[u8]) -> Option<(i64, &[u8])>
    ensures { option_map (λ x. (x.0, x.1.now)) result ≡ digits_at minus bytes.now }
{
    let (digits, rest) = split_digits(bytes);
    if digits.is_empty() {
        return None;
    }
    Some((signed(minus, number_of(digits)?)?, rest))
}

/// The integer with this absolute value, if it has 64 bits.
fn signed(minus: bool, number: u64) -> Option<i64>
    ensures { SomeIff result (fits (signed_integer minus number) ≡ true) (signed_integer minus number) }
{
    if !minus {
        return i64::try_from(number).ok();
    }
    if number == 0 {
        return Some(0);
    }
    let below = i64::try_from(number - 1).ok()?;
    Some(-1 - below)
}
