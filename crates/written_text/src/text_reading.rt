// Texts as lines of cases write them.
ghost use Rattle.std.specs.Prelude.{◌≤◌, length};

use crate::digits::hexadecimal;
use mug_text::{JText, NoMemory};
use std::alloc::Global;

/// The text that is written so: `\n` and `\r`, `\u` and four hexadecimal digits for any unit, and a
/// backslash before any other unit for that unit.
pub fn written_text(alloc: Global, written: &str) -> Result<JText, NoMemory> {
    let written: Vec<u16> = written.encode_utf16().collect(alloc)?;
    let mut units = Vec::new(alloc);
    let mut rest = written.as_slice();
    'units: while let Some((unit, behind)) = rest.split_first() {
        let (value, len) = if *unit == 0x5C {
            escaped_unit(behind)
        } else {
            (*unit, 0)
        };
        units.push(value)?;
        rest = &behind[len..];
    }
    JText::from_units(alloc, &units)
}

// The unit that stands behind a backslash, and how long it is written.
fn escaped_unit(units: &[u16]) -> (u16, usize)
    ensures { result.1 ≤ length units.now }
{
    match units {
        [0x6E, ..] => (0x0A, 1),
        [0x72, ..] => (0x0D, 1),
        [0x75, a, b, c, d, ..] => (
            hexadecimal(*a) * 0x1000
                + hexadecimal(*b) * 0x100
                + hexadecimal(*c) * 0x10
                + hexadecimal(*d),
            5,
        ),
        [unit, ..] => (*unit, 1),
        [] => (0x5C, 0),
    }
}
