// What is seen at the token of a number.
ghost use Rattle.std.specs.Prelude.{◌≡◌, ◌≤◌, IfOk, length, codes, drop};
ghost use Rattle.js_tokens.specs.Units.{opens};
ghost use Rattle.js_grammar.specs.declared.sight.Names.{Names};
ghost use Rattle.js_grammar.specs.Sights as sights;
ghost use Rattle.js_productions.specs.Glances.{sight_of};
ghost use Rattle.js_productions.specs.Glances as glances;

use js_grammar::{Names, Seen};
use js_tokens::{Token, TokenKind, Tokens, Word};
use mug_text::{JText, NoMemory, number_text};
use std::alloc::Global;

/// What is seen at a token, but for what the tokens from there on tell.
#[derive(Clone, Copy, Debug, PartialEq, Eq)]
pub struct Glance {
    pub seen: Seen,
    /// Whether a line terminator stands before it.
    pub line_before: bool,
    /// The unit behind the token before; 0 where there is none.
    pub before: usize,
    /// The first unit; at the end the text's length.
    pub from: usize,
}

/// What is seen at the token of this number; behind the last one it is the end.
pub fn glance_at(names: Names, tokens: &Tokens, place: usize) -> Glance
    requires { place ≤ length tokens.now.items }
    ensures { sight_of result (drop place tokens.now.items) ≡ sights.sight names tokens.now place }
{
    let items = tokens.items.as_slice();
    let before = end_before(items, place);
    glance_of(names, before, tokens.end, &items[place..])
}

// Where the token before the place ends.
fn end_before(tokens: &[Token], place: usize) -> usize
    requires { place ≤ length tokens.now }
    ensures { result ≡ sights.end_before tokens.now place }
{
    if place == 0 { 0 } else { tokens[place - 1].to }
}

// What is seen where these tokens are left, in a text of so many units.
fn glance_of(names: Names, before: usize, units: usize, tokens: &[Token]) -> Glance
    ensures { sight_of result tokens.now ≡ sights.seen_at names before units tokens.now }
{
    match tokens.first() {
        None => Glance {
            seen: Seen::End,
            line_before: false,
            before,
            from: units,
        },
        Some(token) => Glance {
            seen: seen_of(names, token),
            line_before: token.line_before,
            before,
            from: token.from,
        },
    }
}

// The text of the first of these tokens.
pub(crate) fn text_at(alloc: Global, tokens: &[Token]) -> Result<JText, NoMemory>
    ensures { IfOk result (λ t. t ≡ glances.text_at tokens.now) }
{
    match tokens.first() {
        None => JText::from_units(alloc, &[]),
        Some(token) => text_of(alloc, &token.kind),
    }
}

// The number that the first of these tokens is, or 0.
pub(crate) fn number_at(tokens: &[Token]) -> i64
    ensures { result ≡ glances.number_at tokens.now }
{
    match tokens.first() {
        None => 0,
        Some(token) => number_of(&token.kind),
    }
}

// Whether a colon stands behind the first of these tokens.
pub(crate) fn colon_at(tokens: &[Token]) -> bool
    ensures { result ≡ glances.colon_at tokens.now }
{
    match tokens.split_first() {
        None => false,
        Some((_, behind)) => is_colon(behind),
    }
}

fn seen_of(names: Names, token: &Token) -> Seen
    ensures { result ≡ sights.seen_of names token.now }
{
    if is_forbidden(names, &token.kind) {
        Seen::Forbidden
    } else {
        Seen::Word(token.word)
    }
}

// Whether the token is a name that is none here.
fn is_forbidden(names: Names, kind: &TokenKind) -> bool
    ensures { result ≡ sights.is_forbidden names kind.now }
{
    match (names, kind) {
        (Names::Page, TokenKind::Name(name)) => begins_with_mug(name.as_slice()),
        _ => false,
    }
}

fn begins_with_mug(name: &[u16]) -> bool
    ensures { result ≡ opens name.now (codes "$mug") }
{
    name.starts_with(&[0x24, 0x6D, 0x75, 0x67])
}

fn text_of(alloc: Global, kind: &TokenKind) -> Result<JText, NoMemory>
    ensures { IfOk result (λ t. t ≡ sights.text_of kind.now) }
{
    match kind {
        TokenKind::Name(text)
        | TokenKind::Reserved(text)
        | TokenKind::Punctuator(text)
        | TokenKind::Text(text) => text.copy(),
        TokenKind::Number(value) => number_text(alloc, *value),
    }
}

fn number_of(kind: &TokenKind) -> i64
    ensures { result ≡ sights.number_of kind.now }
{
    match kind {
        TokenKind::Number(value) => *value,
        _ => 0,
    }
}

// Whether the first of these tokens is a colon.
fn is_colon(tokens: &[Token]) -> bool
    ensures { result ≡ sights.is_colon (sights.first tokens.now) }
{
    match tokens.first() {
        Some(token) => token.word == Word::Colon,
        None => false,
    }
}

fn is_in(tokens: &[Token]) -> bool
    ensures { result ≡ sights.is_in (sights.first tokens.now) }
{
    match tokens.first() {
        Some(token) => token.word == Word::In,
        None => false,
    }
}

// Whether these tokens are a name, in any number of parentheses, and then `in`.
pub(crate) fn opens_target(tokens: &[Token]) -> bool
    ensures { result ≡ sights.opens_target 0 tokens.now }
{
    let mut rest = tokens;
    let mut count = 0;
    'opened: while let Some((token, behind)) = rest.split_first() {
        if token.word == Word::Name {
            return closes_target(count, behind);
        }
        if token.word != Word::OpenParen {
            return false;
        }
        count += 1;
        rest = behind;
    }
    false
}

fn is_close(token: &Token) -> bool
    ensures { result ≡ sights.is_close token.now.word }
{
    token.word == Word::CloseParen
}

// Whether these tokens are so many closing parentheses, and then `in`.
fn closes_target(count: usize, tokens: &[Token]) -> bool
    ensures { result ≡ sights.closes_target count tokens.now }
{
    let mut rest = tokens;
    let mut left = count;
    'closed: while left > 0 {
        let Some((token, behind)) = rest.split_first() else {
            return false;
        };
        if !is_close(token) {
            return false;
        }
        left -= 1;
        rest = behind;
    }
    is_in(rest)
}
