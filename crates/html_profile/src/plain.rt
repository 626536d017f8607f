// What bytes of a page stand for: line endings and references.
ghost use Rattle.std.specs.Prelude.{◌≡◌, ◌<◌, ◌≤◌, length, IfOk, IfSome, min};
ghost use Rattle.std.specs.Char.{digit_value};
ghost use Rattle.html_profile.specs.Plain.{line_byte, lines, digits_of, value_of, numeric, reference, resolved, plain};

use std::alloc::{AllocError, Global};
use std::char;

// Above every scalar value.
const TOO_LARGE: u32 = 0x11_0000;

fn line_byte(byte: u8, rest: &[u8]) -> Option<u8>
    ensures { result ≡ line_byte byte rest.now }
{
    if byte != b'\r' {
        return Some(byte);
    }
    match rest.first() {
        Some(b'\n') => None,
        _ => Some(b'\n'),
    }
}

/// The bytes with each line ended by a line feed.
pub(crate) fn lines(alloc: Global, bytes: &[u8]) -> Result<Vec<u8>, AllocError>
    ensures { IfOk result (λ out. out.items ≡ lines bytes.now) }
{
    let mut out = Vec::with_capacity(alloc, bytes.len())?;
    let mut rest = bytes;
    while let Some((byte, behind)) = rest.split_first() {
        if let Some(kept) = line_byte(*byte, behind) {
            out.push(kept)?;
        }
        rest = behind;
    }
    Ok(out)
}

// The value of a digit or letter, and 36 for any other byte.
fn digit_value(byte: u8) -> u32
    ensures { result ≡ digit_value byte }
{
    char::from(byte).to_digit(36).unwrap_or(36)
}

fn digits_of(text: &[u8], base: u32) -> &[u8]
    ensures { result.now ≡ digits_of base text.now }
{
    for (index, byte) in text.iter().enumerate() {
        if base <= digit_value(*byte) {
            return &text[..index];
        }
    }
    text
}

// The value of the digits, where it is not above every scalar value.
fn value_of(digits: &[u8], base: u32) -> u32
    requires { base ≤ 16 }
    ensures { result ≡ min (value_of base digits.now) TOO_LARGE }
{
    let mut value = 0;
    for digit in digits {
        value = (value * base + digit_value(*digit)).min(TOO_LARGE);
    }
    value
}

fn numeric(text: &[u8], base: u32, start: usize) -> Option<(char, usize)>
    requires base { base ≤ 16 }
    requires start { start ≤ length text.now }
    ensures is { result ≡ numeric base start text.now }
    ensures within { IfSome result (λ found. (0 < found.1) × (found.1 ≤ length text.now)) }
{
    let digits = digits_of(&text[start..], base);
    let rest = &text[start + digits.len()..];
    match (char::from_u32(value_of(digits, base)), rest.first()) {
        (Some('\0'), _) => None,
        (Some(found), Some(b';')) => Some((found, start + digits.len() + 1)),
        _ => None,
    }
}

fn reference(text: &[u8]) -> Option<(char, usize)>
    ensures is { result ≡ reference text.now }
    ensures within { IfSome result (λ found. (0 < found.1) × (found.1 ≤ length text.now)) }
{
    if text.starts_with(b"&amp;") {
        Some(('&', 5))
    } else if text.starts_with(b"&lt;") {
        Some(('<', 4))
    } else if text.starts_with(b"&gt;") {
        Some(('>', 4))
    } else if text.starts_with(b"&quot;") {
        Some(('"', 6))
    } else if text.starts_with(b"&apos;") {
        Some(('\'', 6))
    } else if text.starts_with(b"&#x") {
        numeric(text, 16, 3)
    } else if text.starts_with(b"&#") {
        numeric(text, 10, 2)
    } else {
        None
    }
}

// The bytes with the character in place of each reference.
fn resolved(alloc: Global, bytes: &[u8]) -> Result<Vec<u8>, AllocError>
    ensures { IfOk result (λ out. out.items ≡ resolved 0 bytes.now) }
{
    let mut out = Vec::with_capacity(alloc, bytes.len())?;
    let mut rest = bytes;
    while let Some((byte, behind)) = rest.split_first() {
        match reference(rest) {
            Some((found, len)) => {
                out.extend_from_slice(found.encode_utf8(&mut [0; 4]).as_bytes())?;
                rest = &rest[len..];
            }
            None => {
                out.push(*byte)?;
                rest = behind;
            }
        }
    }
    Ok(out)
}

/// The text that these bytes stand for, by line endings and references.
pub(crate) fn plain(alloc: Global, bytes: &[u8]) -> Result<Vec<u8>, AllocError>
    ensures { IfOk result (λ out. out.items ≡ plain bytes.now) }
{
    let ended = lines(alloc, bytes)?;
    resolved(alloc, &ended)
}
