// The units of a text, by what they may be part of.
ghost use Rattle.std.specs.Prelude.{◌≡◌, ◌≤◌, IsTrue, length};
ghost use Rattle.std.specs.List.{take_while};
ghost use Rattle.js_tokens.specs.Units as unit_sorts;
ghost use Rattle.js_tokens.specs.Units.{is_part};

use mug_text::is_digit;

// What a name begins with.
pub(crate) fn is_start(unit: u16) -> bool
    ensures { result ≡ unit_sorts.is_start unit }
{
    matches!(unit, 0x61..=0x7A | 0x41..=0x5A | 0x24 | 0x5F)
}

// Whether the text begins with these units.
pub(crate) fn opens(text: &[u16], bytes: &[u8]) -> bool
    ensures is { result ≡ unit_sorts.opens text.now bytes.now }
    ensures bound { IsTrue result → length bytes.now ≤ length text.now }
{
    let mut text = text;
    for byte in bytes {
        let Some((first, rest)) = text.split_first() else {
            return false;
        };
        if *first != u16::from(*byte) {
            return false;
        }
        text = rest;
    }
    true
}

// How many units in front may be part of a name.
pub(crate) fn run_at(units: &[u16]) -> usize
    ensures is { result ≡ length (take_while is_part units.now) }
    ensures within { result ≤ length units.now }
{
    for (index, unit) in units.iter().enumerate() {
        if !is_start(*unit) && !is_digit(*unit) {
            return index;
        }
    }
    units.len()
}
