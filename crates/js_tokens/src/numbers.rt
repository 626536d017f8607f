// Number literals.
ghost use Rattle.std.specs.Prelude.{◌≡◌, ℕ, ℤ, ◌≤◌, true, false, min, length, MatchOption};
ghost use Rattle.std.specs.List.{take_while};
ghost use Rattle.js_tokens.specs.Units.{is_part};
ghost use Rattle.js_tokens.specs.Numbers.{is_numeral, numeral_value};
ghost use Rattle.js_tokens.specs.Numbers as number_sorts;
ghost use Rattle.js_tokens.specs.Tokens.{Stands};
ghost use Rattle.js_tokens.specs.declared.word.Word.{Word};

use crate::lexer::Found;
use crate::units::{is_start, opens, run_at};
use crate::{TokenKind, Word};
use mug_text::{SAFE_END, digits_number, is_digit};

// The number in front: what a name's units in front spell.
pub(crate) fn number_at(units: &[u16]) -> Option<Found>
    ensures { MatchOption result ((z : ℤ) (w : Word) (n : ℕ) → Stands (TokenKind.Number z) w units.now n → ⊥) (λ f. (f.len ≡ length (take_while is_part units.now)) × Stands f.kind f.word units.now f.len) }
{
    let len = run_at(units);
    let value = match numeral_of(&units[..len]) {
        Some(value) => value,
        None => return None,
    };
    if value >= SAFE_END {
        return None;
    }
    if goes_on(&units[len..]) {
        return None;
    }
    Some(Found {
        kind: TokenKind::Number(value as i64),
        word: Word::Number,
        len,
    })
}

// The number that these units spell, or `SAFE_END` where it is above that.
fn numeral_of(units: &[u16]) -> Option<u64>
    ensures { MatchOption result (is_numeral units.now ≡ false) (λ n. (is_numeral units.now ≡ true) × (n ≡ min (numeral_value units.now) SAFE_END)) }
{
    if opens(units, b"0x") {
        return digits_number(16, &units[2..]);
    }
    if units.len() > 1 && units[0] == 0x30 {
        return None;
    }
    digits_number(10, units)
}

// Whether what stands behind a number makes it none.
fn goes_on(behind: &[u16]) -> bool
    ensures { result ≡ number_sorts.goes_on behind.now }
{
    let Some((first, rest)) = behind.split_first() else {
        return false;
    };
    if is_start(*first) || is_digit(*first) {
        return true;
    }
    match rest.first() {
        Some(unit) => *first == 0x2E && is_digit(*unit),
        None => false,
    }
}
