// Digits, and the numbers that they spell.
ghost use Rattle.std.specs.Prelude.{◌≡◌, ◌≢◌, ◌↔◌, ℕ, ◌<◌, ◌≤◌, ◌^◌, min, true, false, decimal, IsTrue, IfNone, IfSome, MatchOption};
ghost use Rattle.mug_text.specs.Digits.{digit, are_digits, digits_value};
ghost use Rattle.mug_text.specs.Number.{IsPadded};

use crate::SAFE_END;
use std::str;

/// The value of a digit 0 to 9, a to f or A to F, and 16 of any other unit.
pub fn digit_value(unit: u16) -> u64
    ensures value { result ≡ digit unit }
    ensures small { result ≤ 16 }
{
    let unit = u64::from(unit);
    match unit {
        0x30..=0x39 => unit - 0x30,
        0x61..=0x66 => unit - 0x57,
        0x41..=0x46 => unit - 0x37,
        _ => 16,
    }
}

/// The number that digits of the base spell, or 2^53 where it is above that; none where the units aren't one or more such digits.
pub fn digits_number(base: u64, units: &[u16]) -> Option<u64>
    requires { base ≤ 16 }
    ensures digits { MatchOption result (are_digits base units.now ≡ false) (λ _. are_digits base units.now ≡ true) }
    ensures value { IfSome result (λ n. n ≡ min (digits_value base units.now) SAFE_END) }
{
    if units.is_empty() {
        return None;
    }
    let mut value = 0u64;
    for unit in units {
        let digit = digit_value(*unit);
        if digit >= base {
            return None;
        }
        value = (value * base + digit).min(SAFE_END);
    }
    Some(value)
}

/// The number below `end` whose decimal spelling the bytes are: digits without a sign and without a zero in front.
pub fn decimal_below(bytes: &[u8], end: u64) -> Option<u64>
    ensures none { IfNone result ((n : ℕ) → n < end → bytes.now ≢ decimal n) }
    ensures some { IfSome result (λ n. (n < end) × (bytes.now ≡ decimal n)) }
{
    let value = spelled(bytes)?;
    if value < end { Some(value) } else { None }
}

// The number of 64 bits that these decimal digits spell.
fn spelled(bytes: &[u8]) -> Option<u64>
    ensures { MatchOption result ((n : ℕ) → n < 2 ^ 64 → bytes.now ≢ decimal n) (λ n. (n < 2 ^ 64) × (bytes.now ≡ decimal n)) }
{
    if is_padded(bytes) {
        return None;
    }
    let Ok(text) = str::from_utf8(bytes) else {
        return None;
    };
    text.parse().ok()
}

// Whether a sign stands in front, or a zero that isn't alone.
fn is_padded(bytes: &[u8]) -> bool
    ensures { IsTrue result ↔ IsPadded bytes.now }
{
    !bytes.is_empty() && (bytes[0] == b'+' || (bytes[0] == b'0' && bytes.len() > 1))
}
