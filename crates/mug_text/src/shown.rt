// How a text is printed.
ghost use Rattle.std.specs.Prelude.{◌≡◌, ◌<◌, ◌++◌, length, take, codes, OnOk, OnErr};
ghost use Rattle.std.specs.Char.{digit_char};
ghost use Rattle.mug_text.specs.Text.{shown_point, shown_text, four_digits};

use crate::NoMemory;
use std::char;

// Appends the units as they are printed. On `Err` some of it may be there.
pub(crate) fn push_text(units: &[u16], out: &mut Vec<u8>) -> Result<(), NoMemory>
    ensures ok { OnOk result (out.new.items ≡ out.old.items ++ shown_text units.now) }
    ensures kept { take (length out.old.items) out.new.items ≡ out.old.items }
{
    for decoded in char::decode_utf16(units.iter().copied()) {
        match decoded {
            Ok(c) => push_char(c, out)?,
            Err(lone) => push_escape(lone.unpaired_surrogate(), out)?,
        }
    }
    Ok(())
}

fn push_char(c: char, out: &mut Vec<u8>) -> Result<(), NoMemory>
    ensures ok { OnOk result (out.new.items ≡ out.old.items ++ shown_point c) }
    ensures err { OnErr result (out.new.items ≡ out.old.items) }
{
    match c {
        '\\' => out.extend_from_slice(b"\\\\")?,
        '\n' => out.extend_from_slice(b"\\n")?,
        '\0'..='\u{1F}' | '\u{7F}' => push_escape(c as u16, out)?,
        _ => out.extend_from_slice(c.encode_utf8(&mut [0; 4]).as_bytes())?,
    }
    Ok(())
}

// Appends `\u` and the unit's four hexadecimal digits.
fn push_escape(unit: u16, out: &mut Vec<u8>) -> Result<(), NoMemory>
    ensures ok { OnOk result (out.new.items ≡ out.old.items ++ (codes "\\u" ++ four_digits unit)) }
    ensures err { OnErr result (out.new.items ≡ out.old.items) }
{
    let escape = [
        b'\\',
        b'u',
        hex_digit(unit / 4096),
        hex_digit(unit / 256 % 16),
        hex_digit(unit / 16 % 16),
        hex_digit(unit % 16),
    ];
    out.extend_from_slice(&escape)?;
    Ok(())
}

fn hex_digit(value: u16) -> u8
    requires { value < 16 }
    ensures { result ≡ digit_char value }
{
    let value = value as u8;
    if value < 10 {
        b'0' + value
    } else {
        b'a' + (value - 10)
    }
}
