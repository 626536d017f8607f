// Units, by what they stand for.
ghost use Rattle.std.specs.Prelude.{◌≡◌, ◌≤◌, length, reverse, take, drop, slice_range};
ghost use Rattle.mug_text.specs.Characters as sorts;
ghost use Rattle.mug_text.specs.Characters.{skip_blanks};

/// White space (ECMA-262 edition 5.1, 7.2).
pub fn is_space(unit: u16) -> bool
    ensures { result ≡ sorts.is_space unit }
{
    matches!(
        unit,
        0x09 | 0x0B | 0x0C | 0x20 | 0xA0 | 0x1680 | 0x2000..=0x200A
            | 0x202F
            | 0x205F
            | 0x3000
            | 0xFEFF
    )
}

/// A line terminator (7.3).
pub fn is_line_end(unit: u16) -> bool
    ensures { result ≡ sorts.is_line_end unit }
{
    matches!(unit, 0x0A | 0x0D | 0x2028 | 0x2029)
}

/// White space or a line terminator.
pub fn is_blank(unit: u16) -> bool
    ensures { result ≡ sorts.is_blank unit }
{
    is_space(unit) || is_line_end(unit)
}

/// One of 0 to 9.
pub fn is_digit(unit: u16) -> bool
    ensures { result ≡ sorts.is_digit unit }
{
    matches!(unit, 0x30..=0x39)
}

/// The units without the blanks at both ends (15.5.4.20).
pub fn trimmed(units: &[u16]) -> &[u16]
    ensures { result.now ≡ sorts.trimmed units.now }
{
    let (from, to) = trimmed_place(units);
    &units[from..to]
}

// Where the units begin and end that are left without the blanks at both ends.
pub(crate) fn trimmed_place(units: &[u16]) -> (usize, usize)
    ensures ordered { result.0 ≤ result.1 }
    ensures within { result.1 ≤ length units.now }
    ensures is { slice_range units.now result.0 result.1 ≡ sorts.trimmed units.now }
{
    let from = blanks_in_front(units);
    let len = len_before_blanks(&units[from..]);
    (from, from + len)
}

fn blanks_in_front(units: &[u16]) -> usize
    ensures within { result ≤ length units.now }
    ensures is { drop result units.now ≡ skip_blanks units.now }
{
    let mut start = 0;
    while start < units.len() && is_blank(units[start]) {
        start += 1;
    }
    start
}

fn len_before_blanks(units: &[u16]) -> usize
    ensures within { result ≤ length units.now }
    ensures is { take result units.now ≡ reverse (skip_blanks (reverse units.now)) }
{
    let mut end = units.len();
    while end > 0 && is_blank(units[end - 1]) {
        end -= 1;
    }
    end
}
