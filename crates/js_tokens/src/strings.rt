// String literals.
ghost use Rattle.std.specs.Prelude.{◌≡◌, ℕ, ◌+◌, ◌*◌, ◌<◌, ◌≤◌, ◌++◌, List, [], ◌∷◌, true, false, nat_lt, length, None, Some, MatchOption, IfOk, OnOk, IfSome, if◌then◌else◌};
ghost use Rattle.std.specs.List.{list_all};
ghost use Rattle.std.specs.Option.{option_to_list};
ghost use Rattle.js_tokens.specs.Units.{begins};
ghost use Rattle.mug_text.specs.Characters as sorts;
ghost use Rattle.mug_text.specs.Digits.{digit, digits_value};
ghost use Rattle.js_tokens.specs.Strings.{piece, escaped, coded, single, Inside};
ghost use Rattle.js_tokens.specs.Strings as string_pieces;

use mug_text::{NoMemory, digit_value, is_digit, is_line_end};

// One piece of a string: the unit that it stands for, if it does, and its length.
#[derive(Clone, Copy, Drop)]
pub(crate) struct Piece {
    pub(crate) value: Option<u16>,
    pub(crate) len: usize,
}

// How many units stand before the closing quote, if there is one; the value is appended.
pub(crate) fn inside_at(
    quote: u16,
    units: &[u16],
    out: &mut Vec<u16>,
) -> Result<Option<usize>, NoMemory>
    ensures { IfOk result (λ o. MatchOption o ((n : ℕ) (v : List ℕ) → Inside quote units.now n v → ⊥) (λ n. (n < length units.now) × ((v : List ℕ) × Inside quote units.now n v × (out.new.items ≡ out.old.items ++ v)))) }
{
    let mut at = 0;
    'pieces: while at < units.len() {
        if units[at] == quote {
            return Ok(Some(at));
        }
        match piece_at(quote, &units[at..]) {
            Some(piece) => {
                push_piece(piece, out)?;
                at += piece.len;
            }
            None => return Ok(None),
        }
    }
    Ok(None)
}

fn push_piece(piece: Piece, out: &mut Vec<u16>) -> Result<(), NoMemory>
    ensures { OnOk result (out.new.items ≡ out.old.items ++ option_to_list piece.value) }
{
    match piece.value {
        Some(unit) => {
            out.push(unit)?;
            Ok(())
        }
        None => Ok(()),
    }
}

// The piece in front.
fn piece_at(quote: u16, units: &[u16]) -> Option<Piece>
    ensures is { result ≡ piece quote units.now }
    ensures moves { IfSome result (λ p. (0 < p.len) × (p.len ≤ length units.now)) }
{
    let (first, rest) = units.split_first()?;
    if *first == quote || is_line_end(*first) {
        return None;
    }
    if *first == 0x5C {
        return escaped_at(rest);
    }
    Some(Piece {
        value: Some(*first),
        len: 1,
    })
}

// The piece that a backslash and these units begin.
fn escaped_at(units: &[u16]) -> Option<Piece>
    ensures is { result ≡ escaped units.now }
    ensures moves { IfSome result (λ p. (0 < p.len) × (p.len ≤ length units.now + 1)) }
{
    let (first, rest) = units.split_first()?;
    if is_line_end(*first) {
        return Some(continued(*first, rest));
    }
    if *first == 0x30 {
        return zero(rest);
    }
    if is_digit(*first) {
        return None;
    }
    match *first {
        0x78 => two_coded(rest),
        0x75 => four_coded(rest),
        unit => Some(Piece {
            value: Some(single_of(unit)),
            len: 2,
        }),
    }
}

// A line continuation that this line terminator begins.
fn continued(unit: u16, rest: &[u16]) -> Piece
    ensures is { result ≡ string_pieces.continued unit rest.now }
    ensures moves { (0 < result.len) × (result.len ≤ length rest.now + 2) }
{
    match rest.first() {
        Some(next) if unit == 0x0D && *next == 0x0A => Piece {
            value: None,
            len: 3,
        },
        _ => Piece {
            value: None,
            len: 2,
        },
    }
}

// The escape of U+0000.
fn zero(rest: &[u16]) -> Option<Piece>
    ensures { result ≡ (if begins sorts.is_digit rest.now then None else Some (record { value = Some 0; len = 2 })) }
{
    match rest.first() {
        Some(next) if is_digit(*next) => None,
        _ => Some(Piece {
            value: Some(0),
            len: 2,
        }),
    }
}

// The unit that two hexadecimal digits stand for.
fn two_coded(units: &[u16]) -> Option<Piece>
    ensures is { result ≡ coded 2 units.now }
    ensures moves { IfSome result (λ p. (p.len ≡ 4) × (2 ≤ length units.now)) }
{
    let [a, b, ..] = units else {
        return None;
    };
    let value = pair(*a, *b)?;
    Some(Piece {
        value: Some(value),
        len: 4,
    })
}

// The unit that four hexadecimal digits stand for.
fn four_coded(units: &[u16]) -> Option<Piece>
    ensures is { result ≡ coded 4 units.now }
    ensures moves { IfSome result (λ p. (p.len ≡ 6) × (4 ≤ length units.now)) }
{
    let [a, b, c, d, ..] = units else {
        return None;
    };
    match four(*a, *b, *c, *d) {
        Some(value) => Some(Piece {
            value: Some(value),
            len: 6,
        }),
        None => None,
    }
}

// The number that four hexadecimal digits spell.
fn four(a: u16, b: u16, c: u16, d: u16) -> Option<u16>
    ensures { MatchOption result (list_all (λ u. nat_lt (digit u) 16) (a ∷ b ∷ c ∷ d ∷ []) ≡ false) (λ n. (list_all (λ u. nat_lt (digit u) 16) (a ∷ b ∷ c ∷ d ∷ []) ≡ true) × (n ≡ digits_value 16 (a ∷ b ∷ c ∷ d ∷ []))) }
{
    let first = digit_value(a);
    let second = digit_value(b);
    let third = digit_value(c);
    let fourth = digit_value(d);
    if first > 15 {
        return None;
    }
    if second > 15 {
        return None;
    }
    if third > 15 {
        return None;
    }
    if fourth > 15 {
        return None;
    }
    Some((((first * 16 + second) * 16 + third) * 16 + fourth) as u16)
}

// The number that two hexadecimal digits spell.
fn pair(a: u16, b: u16) -> Option<u16>
    ensures { MatchOption result ((digit a < 16 → digit b < 16 → ⊥)) (λ n. (digit a < 16) × (digit b < 16) × (n ≡ digit a * 16 + digit b) × (n < 256)) }
{
    let high = digit_value(a);
    let low = digit_value(b);
    if high > 15 || low > 15 {
        return None;
    }
    Some((high * 16 + low) as u16)
}

// The unit that a single character stands for behind a backslash.
fn single_of(unit: u16) -> u16
    ensures { result ≡ single unit }
{
    match unit {
        0x62 => 8,
        0x74 => 9,
        0x6E => 10,
        0x76 => 11,
        0x66 => 12,
        0x72 => 13,
        _ => unit,
    }
}
