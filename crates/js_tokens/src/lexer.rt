// The longest token at a place.
ghost use Rattle.std.specs.Prelude.{◌≡◌, ℕ, ◌<◌, ◌==◌, true, false, not, length, take, drop, slice_get, Some, MatchOption, IfOk, IsTrue};
ghost use Rattle.std.specs.List.{list_all};
ghost use Rattle.js_tokens.specs.Units.{is_quote, begins};
ghost use Rattle.js_tokens.specs.Units as unit_sorts;
ghost use Rattle.mug_text.specs.Characters as sorts;
ghost use Rattle.js_tokens.specs.Words.{spelling, is_word};
ghost use Rattle.js_tokens.specs.Tokens.{Longest, NoneStands};

use crate::numbers::number_at;
use crate::strings::inside_at;
use crate::units::{is_start, opens, run_at};
use crate::word::{PUNCTUATORS, RESERVED};
use crate::{TokenKind, Word};
use mug_text::{JText, NoMemory, is_digit};
use std::alloc::Global;

// A token in front of a text.
#[derive(Drop)]
pub(crate) struct Found {
    pub(crate) kind: TokenKind,
    pub(crate) word: Word,
    pub(crate) len: usize,
}

// The longest token at a place, if one begins there.
pub(crate) fn token_at(alloc: Global, text: &JText, at: usize) -> Result<Option<Found>, NoMemory>
    requires { at < length text.now }
    ensures { IfOk result (λ o. MatchOption o (NoneStands (drop at text.now)) (λ f. Longest f.kind f.word (drop at text.now) f.len)) }
{
    let rest = &text.as_slice()[at..];
    let first = rest[0];
    if is_start(first) {
        return Ok(Some(name_at(text, at)?));
    }
    if is_digit(first) {
        return Ok(numeral_at(rest));
    }
    if first == 0x22 || first == 0x27 {
        return string_at(alloc, first, rest);
    }
    mark_at(text, at)
}

// The number in front.
fn numeral_at(units: &[u16]) -> Option<Found>
    requires { begins sorts.is_digit units.now ≡ true }
    ensures { MatchOption result (NoneStands units.now) (λ f. Longest f.kind f.word units.now f.len) }
{
    number_at(units)
}

// The punctuator at a place.
fn mark_at(text: &JText, at: usize) -> Result<Option<Found>, NoMemory>
    requires inside { at < length text.now }
    requires no_name { begins unit_sorts.is_start (drop at text.now) ≡ false }
    requires no_number { begins sorts.is_digit (drop at text.now) ≡ false }
    requires no_string { begins is_quote (drop at text.now) ≡ false }
    ensures { IfOk result (λ o. MatchOption o (NoneStands (drop at text.now)) (λ f. Longest f.kind f.word (drop at text.now) f.len)) }
{
    let word = match punctuator_at(&text.as_slice()[at..]) {
        Some(word) => word,
        None => return Ok(None),
    };
    let len = word.spelling().len();
    let mark = text.share(at, at + len)?;
    Ok(Some(Found {
        kind: TokenKind::Punctuator(mark),
        word,
        len,
    }))
}

// The name or reserved word at a place.
fn name_at(text: &JText, at: usize) -> Result<Found, NoMemory>
    requires inside { at < length text.now }
    requires starts { begins unit_sorts.is_start (drop at text.now) ≡ true }
    ensures { IfOk result (λ f. Longest f.kind f.word (drop at text.now) f.len) }
{
    let len = run_at(&text.as_slice()[at..]);
    let name = text.share(at, at + len)?;
    match reserved_at(name.as_slice()) {
        Some(word) => Ok(Found {
            kind: TokenKind::Reserved(name),
            word,
            len,
        }),
        None => Ok(Found {
            kind: TokenKind::Name(name),
            word: Word::Name,
            len,
        }),
    }
}

// The reserved word with this text.
fn reserved_at(units: &[u16]) -> Option<Word>
    ensures { MatchOption result (list_all (λ w. not (is_word units.now (spelling w))) RESERVED ≡ true) (λ w. units.now ≡ spelling w) }
{
    for word in RESERVED {
        if is_word_of(units, word.spelling()) {
            return Some(word);
        }
    }
    None
}

// Whether the text is just these units.
fn is_word_of(units: &[u16], bytes: &[u8]) -> bool
    ensures is { result ≡ is_word units.now bytes.now }
    ensures same { IsTrue result → units.now ≡ bytes.now }
{
    units.len() == bytes.len() && opens(units, bytes)
}

// The longest punctuator in front.
fn punctuator_at(units: &[u16]) -> Option<Word>
    ensures { MatchOption result (list_all (λ w. not (unit_sorts.opens units.now (spelling w))) PUNCTUATORS ≡ true) (λ w. (k : ℕ) × (k < length PUNCTUATORS) × (slice_get PUNCTUATORS k ≡ Some w) × (list_all (λ w. not (unit_sorts.opens units.now (spelling w))) (take k PUNCTUATORS) ≡ true) × (unit_sorts.opens units.now (spelling w) ≡ true)) }
{
    for word in PUNCTUATORS {
        if opens(units, word.spelling()) {
            return Some(word);
        }
    }
    None
}

// The string that this quote begins.
fn string_at(alloc: Global, quote: u16, units: &[u16]) -> Result<Option<Found>, NoMemory>
    requires is_quote { is_quote quote ≡ true }
    requires starts { begins (λ u. u == quote) units.now ≡ true }
    ensures { IfOk result (λ o. MatchOption o (NoneStands units.now) (λ f. Longest f.kind f.word units.now f.len)) }
{
    let mut value = Vec::new(alloc);
    match inside_at(quote, &units[1..], &mut value)? {
        Some(len) => Ok(Some(Found {
            kind: TokenKind::Text(JText::from_units(alloc, &value)?),
            word: Word::Text,
            len: len + 2,
        })),
        None => Ok(None),
    }
}
