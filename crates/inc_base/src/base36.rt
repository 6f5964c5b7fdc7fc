ghost use Rattle.std.specs.Prelude.{◌≡◌, ◌≢◌, ℕ, ◌+◌, ◌*◌, ◌<◌, ◌≤◌, ◌^◌, List, IfOk, IfSome, IfNone, true, false, length, slice_index};
ghost use Rattle.std.specs.Char.{digit_char, digit_value};
ghost use Rattle.std.specs.List.{AllPass};
ghost use Rattle.std.specs.Option.{SomeIff};
ghost use Rattle.inc_base.specs.Base36.{is_digit36, number36, last_digits36, Spells36, SpellsWide36};

use crate::bytes::Bytes;
use crate::memory::Memory;
use std::alloc::Global;

/// How many digits the greatest number below 2^128 has.
const WIDE: usize = 25;

/// The text of a number in base 36: digits `0-9a-z`, the highest first, and no leading zero; 0 is `0`.
/// `Memory` where there is no memory for it. (docs/FORMATS.md, "Numbers in base 36")
pub fn to36(alloc: Global, v: u128) -> Result<Bytes, Memory>
    ensures spells { IfOk result (λ it. Spells36 it v) }
    ensures only { IfOk result (λ it. (text : List ℕ) → Spells36 text v → text ≡ it) }
{
    let digits = last_digits(v);
    let text = &digits[first_digit(&digits)..];
    Bytes::of(alloc, text)
}

/// The text of a number in base 36 with zeros in front, exactly 25 digits, which is enough for each.
/// `Memory` where there is no memory for it. (docs/FORMATS.md, "Numbers in base 36")
pub fn to36_wide(alloc: Global, v: u128) -> Result<Bytes, Memory>
    ensures spells { IfOk result (λ it. SpellsWide36 it v) }
    ensures only { IfOk result (λ it. (text : List ℕ) → SpellsWide36 text v → text ≡ it) }
{
    Bytes::of(alloc, &last_digits(v))
}

/// The number below 2^128 that has this text in base 36, and None exactly where none has: the text is
/// empty, has another byte than `0-9a-z` or a leading zero, or means 2^128 or more.
pub fn from36(b: &[u8]) -> Option<u128>
    ensures some { IfSome result (λ v. Spells36 b.now v) }
    ensures none { IfNone result ((v : ℕ) → v < 2 ^ 128 → ¬ Spells36 b.now v) }
{
    match b {
        [] | [b'0', _, ..] => None,
        _ => number(b),
    }
}

/// The number below 2^128 that has this text in base 36 with 25 digits, and None exactly where none
/// has.
pub fn from36_wide(b: &[u8]) -> Option<u128>
    ensures some { IfSome result (λ v. SpellsWide36 b.now v) }
    ensures none { IfNone result ((v : ℕ) → v < 2 ^ 128 → ¬ SpellsWide36 b.now v) }
{
    if b.len() == WIDE { number(b) } else { None }
}

fn digit_of(byte: u8) -> Option<u8>
    ensures some { IfSome result (λ d. (is_digit36 byte ≡ true) × (digit_value byte ≡ d) × (d < 36)) }
    ensures none { IfNone result (is_digit36 byte ≡ false) }
{
    match byte {
        b'0'..=b'9' => Some(byte - b'0'),
        b'a'..=b'z' => Some(byte - b'a' + 10),
        _ => None,
    }
}

fn byte_of(digit: u8) -> u8
    requires { digit < 36 }
    ensures { result ≡ digit_char digit }
{
    if digit < 10 {
        b'0' + digit
    } else {
        b'a' - 10 + digit
    }
}

/// The number that one digit more makes.
fn with_digit(value: u128, digit: u8) -> Option<u128>
    ensures { SomeIff result (value * 36 + digit < 2 ^ 128) (value * 36 + digit) }
{
    value.checked_mul(36)?.checked_add(u128::from(digit))
}

/// The number that digits write, leading zeros and all.
fn number(text: &[u8]) -> Option<u128>
    ensures some { IfSome result (λ v. AllPass is_digit36 text.now × (number36 text.now ≡ v) × (v < 2 ^ 128)) }
    ensures none { IfNone result (AllPass is_digit36 text.now → 2 ^ 128 ≤ number36 text.now) }
{
    let mut value: u128 = 0;
    for byte in text {
        value = with_digit(value, digit_of(*byte)?)?;
    }
    Some(value)
}

fn last_digits(v: u128) -> [u8; WIDE]
    ensures { result ≡ last_digits36 25 v }
{
    let mut digits = [b'0'; WIDE];
    let mut rest = v;
    let mut at = WIDE;
    while at > 0 {
        at -= 1;
        digits[at] = byte_of((rest % 36) as u8);
        rest /= 36;
    }
    digits
}

/// Where digits begin without their leading zeros. The last digit always stays.
fn first_digit(digits: &[u8]) -> usize
    requires { 0 < length digits.now }
    ensures within { result < length digits.now }
    ensures zeros { (k : ℕ) → k < result → slice_index digits.now k ≡ 48 }
    ensures first { result + 1 < length digits.now → slice_index digits.now result ≢ 48 }
{
    let mut at = 0;
    while at + 1 < digits.len() && digits[at] == b'0' {
        at += 1;
    }
    at
}
