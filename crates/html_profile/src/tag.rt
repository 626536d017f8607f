// The attributes of a start tag.
ghost use Rattle.std.specs.Prelude.{◌≡◌, ◌<◌, ◌≤◌, length, IfOk, IfSome};
ghost use Rattle.html_profile.specs.Marks.{lower};
ghost use Rattle.html_profile.specs.Attributes.{quoted, given, value_at, attribute_at, closing, IsAttributes, seen, seen_rest, seen_attribute};

use crate::mark::Mark;
use crate::plain::plain;
use mug_text::{Bytes, Listed};
use std::alloc::{AllocError, Global};

/// An attribute as it stands in a tag, in UTF-8.
#[derive(Debug, Drop)]
pub(crate) struct Attribute {
    /// The name, with ASCII letters lowered.
    pub(crate) name: Bytes,
    /// The value, with its references read.
    pub(crate) value: Bytes,
    /// How many bytes there are from the name's first to the page's end.
    pub(crate) left: usize,
}

/// The bytes with ASCII letters lowered.
pub(crate) fn lower(alloc: Global, bytes: &[u8]) -> Result<Bytes, AllocError>
    ensures { IfOk result (λ out. out ≡ lower bytes.now) }
{
    let lowered = bytes
        .iter()
        .map(|byte| byte.to_ascii_lowercase())
        .collect(alloc)?;
    Ok(Bytes::from_vec(lowered))
}

// The part before the quote, and what stands behind it.
fn quoted(quote: u8, text: &[u8]) -> Option<(&[u8], &[u8])>
    ensures is { seen result ≡ quoted quote text.now }
    ensures shorter { IfSome result (λ found. length found.1.now ≤ length text.now) }
{
    let (value, rest) = Mark::Quote(quote).split(text);
    let (_, behind) = rest.split_first()?;
    Some((value, behind))
}

// The value behind `=` and white space, and what stands behind it.
fn given(text: &[u8]) -> Option<(&[u8], &[u8])>
    ensures is { seen result ≡ given text.now }
    ensures shorter { IfSome result (λ found. length found.1.now ≤ length text.now) }
{
    match text.split_first() {
        Some((b'"', rest)) => quoted(b'"', rest),
        Some((b'\'', rest)) => quoted(b'\'', rest),
        _ => Some(Mark::ValueEnd.split(text)),
    }
}

// The value behind an attribute's name, and what stands behind it.
fn value_at(text: &[u8]) -> Option<(&[u8], &[u8])>
    ensures is { seen result ≡ value_at text.now }
    ensures shorter { IfSome result (λ found. length found.1.now ≤ length text.now) }
{
    let (_, sign) = Mark::Ink.split(text);
    match sign.split_first() {
        Some((b'=', rest)) => given(Mark::Ink.split(rest).1),
        _ => Some((&text[..0], text)),
    }
}

// The attribute at the front of the text, and what stands behind it.
fn attribute_at(alloc: Global, text: &[u8]) -> Result<Option<(Attribute, &[u8])>, AllocError>
    ensures is { IfOk result (λ found. seen_attribute found ≡ attribute_at text.now) }
    ensures shorter { IfOk result
        (λ found. IfSome found (λ pair. length pair.1.now < length text.now)) }
{
    let Some((first, rest)) = text.split_first() else {
        return Ok(None);
    };
    if *first == b'>' {
        return Ok(None);
    }
    let end = 1 + Mark::AttributeEnd.place(rest);
    let Some((value, behind)) = value_at(&text[end..]) else {
        return Ok(None);
    };
    let attribute = Attribute {
        name: lower(alloc, &text[..end])?,
        value: Bytes::from_vec(plain(alloc, value)?),
        left: text.len(),
    };
    Ok(Some((attribute, behind)))
}

/// The attributes behind a tag's name, and what stands behind the tag; `None` where the end cuts
/// the tag off.
pub(crate) fn attributes(
    alloc: Global,
    text: &[u8],
) -> Result<(Listed<Attribute>, Option<&[u8]>), AllocError>
    ensures is { IfOk result (λ found. IsAttributes text.now found.0 (seen_rest found.1)) }
    ensures shorter { IfOk result
        (λ found. IfSome found.1 (λ rest. length rest.now < length text.now)) }
{
    let mut attributes = Vec::new(alloc);
    let mut rest = text;
    loop {
        let (_, at) = Mark::Solid.split(rest);
        match attribute_at(alloc, at)? {
            Some((attribute, behind)) => {
                attributes.push(attribute)?;
                rest = behind;
            }
            None => return Ok((Listed::of(attributes), closing(at))),
        }
    }
}

// What stands behind the `>` at the front.
fn closing(text: &[u8]) -> Option<&[u8]>
    ensures is { seen_rest result ≡ closing text.now }
    ensures shorter { IfSome result (λ rest. length rest.now < length text.now) }
{
    match text.split_first() {
        Some((b'>', rest)) => Some(rest),
        _ => None,
    }
}
