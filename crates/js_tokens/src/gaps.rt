// What stands between tokens.
ghost use Rattle.std.specs.Prelude.{◌≡◌, ◌≤◌, length, None, IsTrue, IfSome, not, drop};
ghost use Rattle.std.specs.List.{take_while, list_any};
ghost use Rattle.mug_text.specs.Characters as sorts;
ghost use Rattle.js_tokens.specs.Gaps.{star_slash, blank, Gap as gap_of};

use crate::units::opens;
use mug_text::{is_blank, is_line_end};

// A run of white space, line terminators and comments.
#[derive(Clone, Copy, Drop)]
pub(crate) struct Gap {
    pub(crate) len: usize,
    // Whether a line terminator is among it.
    pub(crate) line: bool,
    // Whether it is known that no comment behind it is ended.
    pub(crate) dry: bool,
}

// All that stands in front of a token. `dry` says that no `*/` ends a comment that begins here or later, so that none is looked for twice.
pub(crate) fn gap_at(units: &[u16], dry: bool) -> Gap
    requires { IsTrue dry → star_slash (drop 2 units.now) ≡ None }
    ensures gap { gap_of units.now result.len result.line }
    ensures within { result.len ≤ length units.now }
    ensures dry { IsTrue result.dry → star_slash (drop 2 (drop result.len units.now)) ≡ None }
{
    let mut len = 0;
    let mut line = false;
    'pieces: while len < units.len() {
        let rest = &units[len..];
        let piece = blank_at(rest, dry);
        if piece == 0 {
            return Gap {
                len,
                line,
                dry: dry || opens(rest, b"/*"),
            };
        }
        line = line || has_line_end(&rest[..piece]);
        len += piece;
    }
    Gap { len, line, dry }
}

// The length of the comment, white space unit or line terminator in front.
fn blank_at(units: &[u16], dry: bool) -> usize
    requires { IsTrue dry → star_slash (drop 2 units.now) ≡ None }
    ensures is { result ≡ blank units.now }
    ensures within { result ≤ length units.now }
{
    if opens(units, b"/*") {
        if dry {
            return 0;
        }
        return match star_slash_at(&units[2..]) {
            Some(len) => len + 2,
            None => 0,
        };
    }
    if opens(units, b"//") {
        return 2 + line_at(&units[2..]);
    }
    match units.first() {
        Some(unit) if is_blank(*unit) => 1,
        _ => 0,
    }
}

// How many units stand before and in the first `*/`.
fn star_slash_at(units: &[u16]) -> Option<usize>
    ensures is { result ≡ star_slash units.now }
    ensures within { IfSome result (λ n. n ≤ length units.now) }
{
    let mut at = 0;
    'units: while at < units.len() {
        if opens(&units[at..], b"*/") {
            return Some(at + 2);
        }
        at += 1;
    }
    None
}

// How many units stand before a line terminator.
fn line_at(units: &[u16]) -> usize
    ensures is { result ≡ length (take_while (λ u. not (sorts.is_line_end u)) units.now) }
    ensures within { result ≤ length units.now }
{
    for (index, unit) in units.iter().enumerate() {
        if is_line_end(*unit) {
            return index;
        }
    }
    units.len()
}

fn has_line_end(units: &[u16]) -> bool
    ensures { result ≡ list_any sorts.is_line_end units.now }
{
    for unit in units {
        if is_line_end(*unit) {
            return true;
        }
    }
    false
}
