//! Integers as the External Term Format has them.

ghost use Rattle.std.specs.Prelude.{◌≡◌, ◌+◌, ◌^◌, ◌<◌, ◌≤◌, length, OnOk, ◌++◌, reverse, true};
ghost use Rattle.std.specs.Int.Digits.{digits_of};
ghost use Rattle.std.specs.Option.{SomeIff};
ghost use Rattle.port_terms.specs.Spelling.{little_endian, signed as signed_integer};
ghost use Rattle.port_terms.specs.Reading.{fits};
ghost use Rattle.port_terms.specs.Written.{written_int};
ghost use Rattle.port_terms.specs.Forms.{form_bytes};

use std::alloc::AllocError;

/// How an integer is written.
#[derive(Clone, Copy, Debug)]
pub enum IntegerForm {
    /// From 0 to 255.
    Byte(u8),
    /// Another of 32 bits.
    Word(i32),
    /// Another, by its sign, 1 for a negative one, and its absolute value.
    Big { sign: u8, magnitude: u64 },
}

/// The form in which an integer is written.
pub(crate) fn form_of(number: i64) -> IntegerForm
    ensures { form_bytes result ≡ written_int number }
{
    if let Ok(byte) = u8::try_from(number) {
        return IntegerForm::Byte(byte);
    }
    if let Ok(word) = i32::try_from(number) {
        return IntegerForm::Word(word);
    }
    IntegerForm::Big {
        sign: u8::from(number < 0),
        magnitude: number.unsigned_abs(),
    }
}

/// How many digits a number has in base 256, none for 0.
#[tactic(auto, using(crate::proofs::Digits::one_digit_less, crate::proofs::Digits::few_digits))]
pub(crate) fn digit_count(number: u64) -> u8
    ensures count { result ≡ length (digits_of 256 number) }
    ensures few { result ≤ 8 }
{
    let mut count = 0;
    let mut rest = number;
    while rest > 0 {
        rest /= 256;
        count += 1;
    }
    count
}

/// Appends the digits of a number in base 256, the least significant first.
#[tactic(auto, using(crate::proofs::Digits::digits_step, std::proofs::lemmas::List::append_assoc))]
pub(crate) fn put_digits(out: &mut Vec<u8>, number: u64) -> Result<(), AllocError>
    ensures { OnOk result (out.new.items ≡ out.old.items ++ reverse (digits_of 256 number)) }
{
    let mut rest = number;
    while rest > 0 {
        out.push((rest % 256) as u8)?;
        rest /= 256;
    }
    Ok(())
}

/// The number with these digits in base 256, the least significant first, if it has 64 bits.
pub(crate) fn number_of(digits: &[u8]) -> Option<u64>
    ensures { SomeIff result (little_endian digits.now < 2 ^ 64) (little_endian digits.now) }
{
    let mut number = 0u64;
    for i in 0..digits.len() {
        let digit = digits[digits.len() - 1 - i];
        number = number.checked_mul(256)?.checked_add(u64::from(digit))?;
    }
    Some(number)
}

/// The integer of 64 bits with that sign and these digits, the least significant first, if it is one.
pub(crate) fn signed(sign: u8, digits: &[u8]) -> Option<i64>
    ensures { SomeIff result (fits (signed_integer sign (little_endian digits.now)) ≡ true) (signed_integer sign (little_endian digits.now)) }
{
    let number = number_of(digits)?;
    if sign == 0 {
        return i64::try_from(number).ok();
    }
    if number == 0 {
        return Some(0);
    }
    let below = i64::try_from(number - 1).ok()?;
    Some(-1 - below)
}
