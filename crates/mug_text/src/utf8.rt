// The bytes of a text.
ghost use Rattle.std.specs.Prelude.{◌≡◌, ◌++◌, length, take, OnOk};
ghost use Rattle.mug_text.specs.Text.{utf8_of};

use crate::NoMemory;
use std::char;

// Appends the bytes. On `Err` some of them may be there.
pub(crate) fn push_utf8(units: &[u16], out: &mut Vec<u8>) -> Result<(), NoMemory>
    ensures ok { OnOk result (out.new.items ≡ out.old.items ++ utf8_of units.now) }
    ensures kept { take (length out.old.items) out.new.items ≡ out.old.items }
{
    for decoded in char::decode_utf16(units.iter().copied()) {
        let c = decoded.unwrap_or(char::REPLACEMENT_CHARACTER);
        out.extend_from_slice(c.encode_utf8(&mut [0; 4]).as_bytes())?;
    }
    Ok(())
}

// How many bytes there are, without making them.
pub(crate) fn count_utf8(units: &[u16]) -> usize
    ensures { result ≡ length (utf8_of units.now) }
{
    let mut count = 0;
    for decoded in char::decode_utf16(units.iter().copied()) {
        let c = decoded.unwrap_or(char::REPLACEMENT_CHARACTER);
        count += c.len_utf8();
    }
    count
}
