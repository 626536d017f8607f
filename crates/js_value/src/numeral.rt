// The numbers of texts (ECMA-262 edition 5.1, 9.3.1).
ghost use Rattle.std.specs.Prelude.{◌≡◌, ◌≤◌};
ghost use Rattle.js_value.specs.Number.{in_profile};
ghost use Rattle.js_value.specs.Numeral as numeral;

use crate::Num;
use mug_text::{JText, digits_number, trimmed};

/// The number of a text: 0 of an empty one, that of decimal digits with or without a sign, or of `0x` and hexadecimal digits, with blanks around them, and else NaN.
/// None exactly where that number is outside the profile.
pub fn to_number_of_text(text: &JText) -> Option<Num>
    ensures { result ≡ in_profile (numeral.number_of_text text.now) }
{
    number_in(trimmed(text.as_slice()))
}

// The number of what stands between the blanks.
fn number_in(units: &[u16]) -> Option<Num>
    ensures { result ≡ in_profile (numeral.number_in units.now) }
{
    if units.is_empty() {
        return Num::whole(0);
    }
    if units[0] == 0x2B {
        return unsigned(10, &units[1..]);
    }
    if units[0] == 0x2D {
        return unsigned(10, &units[1..]).map(Num::negated);
    }
    if units.len() > 1 && units[0] == 0x30 && units[1] == 0x78 {
        return unsigned(16, &units[2..]);
    }
    unsigned(10, units)
}

// The number that digits spell, or NaN.
fn unsigned(base: u64, units: &[u16]) -> Option<Num>
    requires { base ≤ 16 }
    ensures { result ≡ in_profile (numeral.unsigned base units.now) }
{
    match digits_number(base, units) {
        Some(value) => Num::whole(i128::from(value)),
        None => Some(Num::NaN),
    }
}
