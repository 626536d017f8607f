// The pieces that make up a page.
ghost use Rattle.std.specs.Prelude.{◌≡◌, ◌<◌, ◌≤◌, length, drop, IfOk};
ghost use Rattle.std.specs.Char.{is_ascii_alphabetic};
ghost use Rattle.html_profile.specs.Marks.{begins, from};
ghost use Rattle.html_profile.specs.Pieces.{kind_of, markup_kind, raw_of, raw_text, source, read_source, behind_content, IsStartTag, IsPiece, end_tag};

use crate::mark::{Mark, Raw};
use crate::plain::{lines, plain};
use crate::tag::{Attribute, attributes, lower};
use mug_text::{Bytes, Listed};
use std::alloc::{AllocError, Global};

/// The kinds of pieces.
#[derive(Clone, Copy, Debug, PartialEq, Eq)]
pub(crate) enum Kind {
    Comment,
    /// What is dropped up to `>`.
    Other,
    Ending,
    Starting,
    Words,
}

/// A start tag, with the text of an element with raw text.
#[derive(Debug, Drop)]
pub(crate) struct Tag {
    pub(crate) name: Bytes,
    pub(crate) attributes: Listed<Attribute>,
    /// The bytes that read as the text.
    pub(crate) source: Bytes,
    pub(crate) text: Bytes,
    /// How many bytes there are from the tag's end to the page's end.
    pub(crate) left: usize,
}

/// A piece of a page.
#[derive(Debug, Drop)]
pub(crate) enum Piece {
    Dropped,
    Text(Bytes),
    EndTag(Bytes),
    StartTag(Tag),
}

// Whether a letter stands at this place.
fn letter_at(text: &[u8], place: usize) -> bool
    ensures { result ≡ begins is_ascii_alphabetic (drop place text.now) }
{
    match text.get(place) {
        Some(byte) => byte.is_ascii_alphabetic(),
        None => false,
    }
}

// The kind of a piece that begins with markup.
fn markup_kind(text: &[u8]) -> Kind
    ensures { result ≡ markup_kind text.now }
{
    if text.starts_with(b"<!--") {
        Kind::Comment
    } else if letter_at(text, 1) {
        Kind::Starting
    } else if text.starts_with(b"</") && letter_at(text, 2) {
        Kind::Ending
    } else {
        Kind::Other
    }
}

fn kind_of(text: &[u8]) -> Kind
    ensures { result ≡ kind_of text.now }
{
    if Mark::Markup.stands(text) {
        markup_kind(text)
    } else {
        Kind::Words
    }
}

// The element with raw text that has this name.
fn raw_of(name: &[u8]) -> Option<Raw>
    ensures { result ≡ raw_of name.now }
{
    if name == Raw::Script.name() {
        Some(Raw::Script)
    } else if name == Raw::Style.name() {
        Some(Raw::Style)
    } else if name == Raw::Title.name() {
        Some(Raw::Title)
    } else if name == Raw::Textarea.name() {
        Some(Raw::Textarea)
    } else {
        None
    }
}

fn raw_text(alloc: Global, raw: Raw, bytes: &[u8]) -> Result<Vec<u8>, AllocError>
    ensures { IfOk result (λ text. text.items ≡ raw_text raw bytes.now) }
{
    match raw {
        Raw::Script | Raw::Style => lines(alloc, bytes),
        Raw::Title | Raw::Textarea => plain(alloc, bytes),
    }
}

// The raw text behind a start tag, as it stands there, and what stands behind it.
fn split_source(raw: Option<Raw>, rest: &[u8]) -> (&[u8], &[u8])
    ensures source { result.0.now ≡ source raw rest.now }
    ensures behind { result.1.now ≡ behind_content raw rest.now }
    ensures within { length result.1.now ≤ length rest.now }
{
    match raw {
        Some(raw) => Mark::RawEnd(raw).split(rest),
        None => (&rest[..0], rest),
    }
}

// What the raw text of an element reads as.
fn read_source(alloc: Global, raw: Option<Raw>, bytes: &[u8]) -> Result<Vec<u8>, AllocError>
    ensures { IfOk result (λ text. text.items ≡ read_source raw bytes.now) }
{
    match raw {
        Some(raw) => raw_text(alloc, raw, bytes),
        None => Ok(Vec::new(alloc)),
    }
}

// What stands behind the mark, which has this length.
fn behind(mark: Mark, len: usize, text: &[u8]) -> &[u8]
    ensures is { result.now ≡ drop len (from mark text.now) }
    ensures within { length result.now ≤ length text.now }
    ensures shorter { 0 < len → 0 < length text.now → length result.now < length text.now }
{
    let (_, rest) = mark.split(text);
    if len <= rest.len() {
        &rest[len..]
    } else {
        &rest[rest.len()..]
    }
}

// The start tag at the front, and what stands behind it and its text.
fn start_tag(alloc: Global, text: &[u8]) -> Result<(Piece, &[u8]), AllocError>
    requires { 0 < length text.now }
    ensures is { IfOk result (λ found. IsStartTag text.now found.0 found.1.now) }
    ensures shorter { IfOk result (λ found. length found.1.now < length text.now) }
{
    let (name, rest) = Mark::NameEnd.split(&text[1..]);
    let name = lower(alloc, name)?;
    let (attributes, rest) = attributes(alloc, rest)?;
    let Some(rest) = rest else {
        return Ok((Piece::Dropped, &text[text.len()..]));
    };
    let raw = raw_of(name.as_slice());
    let (source, behind) = split_source(raw, rest);
    let text = read_source(alloc, raw, source)?;
    let source = source.to_vec(alloc)?;
    let tag = Tag {
        name,
        attributes,
        source: Bytes::from_vec(source),
        text: Bytes::from_vec(text),
        left: rest.len(),
    };
    Ok((Piece::StartTag(tag), behind))
}

// The end tag at the front.
fn end_tag(alloc: Global, text: &[u8]) -> Result<Piece, AllocError>
    requires { 2 ≤ length text.now }
    ensures { IfOk result (λ piece. piece ≡ end_tag text.now) }
{
    if Mark::TagEnd.place(text) == text.len() {
        return Ok(Piece::Dropped);
    }
    let (name, _) = Mark::NameEnd.split(&text[2..]);
    Ok(Piece::EndTag(lower(alloc, name)?))
}

/// The piece at the front of a text, and what stands behind it.
pub(crate) fn piece_at(alloc: Global, text: &[u8]) -> Result<(Piece, &[u8]), AllocError>
    requires { 0 < length text.now }
    ensures is { IfOk result (λ found. IsPiece text.now found.0 found.1.now) }
    ensures shorter { IfOk result (λ found. length found.1.now < length text.now) }
{
    match kind_of(text) {
        Kind::Comment => Ok((Piece::Dropped, behind(Mark::CommentEnd, 3, &text[4..]))),
        Kind::Other => Ok((Piece::Dropped, behind(Mark::TagEnd, 1, text))),
        Kind::Ending => Ok((end_tag(alloc, text)?, behind(Mark::TagEnd, 1, text))),
        Kind::Starting => start_tag(alloc, text),
        Kind::Words => {
            let (words, rest) = Mark::Markup.split(text);
            Ok((Piece::Text(Bytes::from_vec(plain(alloc, words)?)), rest))
        }
    }
}
