// A line, split into its word and its one field.
ghost use Rattle.std.specs.Prelude.{◌≡◌, ◌≢◌, ◌<◌, ◌+◌, ℕ, List, ◌∷◌, ◌++◌, length, IfOk};
ghost use Rattle.std.specs.Prelude.{MatchOption};
ghost use Rattle.std.specs.Str.{bytes_eq};
ghost use Rattle.arrival_file.specs.Lines.{is_later};
ghost use Rattle.arrival_file.specs.inner.Split.{EndsField, IsField, Splits};

use crate::ArrivalKind;
use crate::stop::Stop;

// A line's word, its one field, and the bytes after its line feed.
#[derive(Clone, Copy)]
pub struct Fields<'a> {
    pub word: &'a [u8],
    pub field: &'a [u8],
    pub after: &'a [u8],
}

pub fn is_word(bytes: &[u8], word: &[u8]) -> bool
    ensures { result ≡ bytes_eq bytes.now word.now }
{
    bytes == word
}

// Whether lines of this word are of a kind that isn't read yet.
fn is_later(word: &[u8]) -> bool
    ensures { result ≡ is_later word.now }
{
    is_word(word, b"resource")
        || is_word(word, b"event")
        || is_word(word, b"input")
        || is_word(word, b"timer")
        || is_word(word, b"reply")
        || is_word(word, b"fail")
}

// The bytes before the first space or line feed, and the bytes from there on.
fn split_word(bytes: &[u8]) -> (&[u8], &[u8])
    ensures whole { bytes.now ≡ result.0.now ++ result.1.now }
    ensures field { IsField result.0.now }
    ensures ends { EndsField result.1.now }
{
    let mut len = 0;
    while len < bytes.len() && bytes[len] != b' ' && bytes[len] != b'\n' {
        len += 1;
    }
    bytes.split_at(len)
}

// The bytes after this first one.
fn past(bytes: &[u8], first: u8) -> Option<&[u8]>
    ensures { MatchOption result ((more : List ℕ) → bytes.now ≢ first ∷ more)
        (λ more. bytes.now ≡ first ∷ more.now) }
{
    match bytes {
        [b, more @ ..] if *b == first => Some(more),
        _ => None,
    }
}

// Splits a line, unless its word is of a kind that isn't read yet.
pub fn split_line(rest: &[u8]) -> Result<Fields<'_>, Stop>
    ensures splits { Splits result rest.now }
    ensures shorter { IfOk result
        (λ line. length line.field.now + length line.after.now < length rest.now) }
{
    let (word, behind) = split_word(rest);
    if is_later(word) {
        return Err(Stop::NotBuilt);
    }
    let Some(rest) = past(behind, b' ') else {
        return Err(Stop::Breaks(ArrivalKind::Form));
    };
    let (field, end) = split_word(rest);
    let Some(after) = past(end, b'\n') else {
        return Err(Stop::Breaks(ArrivalKind::Form));
    };
    Ok(Fields { word, field, after })
}
