// Where the units of a script's text stand in its bytes.
ghost use Rattle.std.specs.Prelude.{◌≡◌, ◌≤◌, length};
ghost use Rattle.html_profile.specs.ScriptPlaces.{units_at, unit_place};

// How many units begin at a byte behind another.
fn units_at(before: u8, byte: u8) -> usize
    ensures { result ≡ units_at before byte }
{
    match (before, byte) {
        (b'\r', b'\n') => 0,
        (_, 0x80..=0xBF) => 0,
        (_, 0xF0..) => 2,
        _ => 1,
    }
}

/// The place of the byte at which the unit of this number begins; where there are no more units,
/// the end.
pub(crate) fn unit_place(bytes: &[u8], unit: usize) -> usize
    ensures is { result ≡ unit_place unit bytes.now }
    ensures within { result ≤ length bytes.now }
{
    let mut before = 0;
    let mut left = unit;
    for (index, byte) in bytes.iter().enumerate() {
        let begun = units_at(before, *byte);
        if left < begun {
            return index;
        }
        left -= begun;
        before = *byte;
    }
    bytes.len()
}
