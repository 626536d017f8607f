// Bytes as lines of cases write them.
ghost use Rattle.std.specs.Prelude.{◌≡◌, ◌+◌, ◌*◌, ◌≤◌, ℕ, List, ◌∷◌, drop, length, IfOk};
ghost use Rattle.written_text.specs.Escapes as spec;

use crate::digits::hexadecimal;
use mug_text::NoMemory;
use std::alloc::Global;

/// The bytes that are written so: `\n`, `\r` and `\t`, `\x` and two hexadecimal digits for any byte,
/// and a backslash before any other byte for that byte.
pub fn bytes(alloc: Global, written: &str) -> Result<Vec<u8>, NoMemory>
    ensures { IfOk result (λ bytes. spec.Spells written.now bytes.items) }
{
    let mut bytes = Vec::new(alloc);
    let mut rest = written.as_bytes();
    'bytes: while let Some((byte, behind)) = rest.split_first() {
        let (value, len) = first_byte(*byte, behind);
        bytes.push(value)?;
        rest = &behind[len..];
    }
    Ok(bytes)
}

// The byte that the first ones spell, and how many of those behind the first belong to it.
fn first_byte(byte: u8, behind: &[u8]) -> (u8, usize)
    ensures within { result.1 ≤ length behind.now }
    ensures spells { (bytes : List ℕ) → spec.Spells (drop result.1 behind.now) bytes →
        spec.Spells (byte ∷ behind.now) (result.0 ∷ bytes) }
{
    if byte == b'\\' {
        escaped_byte(behind)
    } else {
        (byte, 0)
    }
}

// The byte that stands behind a backslash, and how long it is written.
fn escaped_byte(behind: &[u8]) -> (u8, usize)
    ensures is { result ≡ spec.escape behind.now }
    ensures within { result.1 ≤ length behind.now }
{
    match behind {
        [b'x', high, low, ..] => (numbered(*high, *low), 3),
        [byte, ..] => (named(*byte), 1),
        [] => (b'\\', 0),
    }
}

// The byte of two hexadecimal digits.
fn numbered(high: u8, low: u8) -> u8
    ensures { result ≡ spec.hexadecimal high * 16 + spec.hexadecimal low }
{
    (hexadecimal(u16::from(high)) * 16 + hexadecimal(u16::from(low))) as u8
}

// The byte that a letter behind a backslash stands for.
fn named(byte: u8) -> u8
    ensures { result ≡ spec.escaped byte }
{
    match byte {
        b'n' => b'\n',
        b'r' => b'\r',
        b't' => b'\t',
        _ => byte,
    }
}
