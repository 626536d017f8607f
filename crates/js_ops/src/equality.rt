// Equality of any two values (ECMA-262 edition 5.1, 11.9.3).
ghost use Rattle.std.specs.Prelude.{◌≡◌, Some, None, MatchResult};
ghost use Rattle.js_value.specs.Image.{IsPrimitive};
ghost use Rattle.js_ops.specs.Rows as rows;

use crate::RangeThrow;
use crate::convert::{as_text, is_missing, to_number};
use js_value::{Value, same};

/// An operand of an operator with two.
#[derive(Clone, Copy, Debug, PartialEq, Eq)]
pub enum Side {
    Left,
    Right,
}

/// The hint of ToPrimitive (ECMA-262 edition 5.1, 9.1).
#[derive(Clone, Copy, Debug, PartialEq, Eq)]
pub enum Hint {
    /// None: text of a date, and number of any other object (8.12.8).
    Default,
    Number,
    Text,
}

/// What `==` comes to.
#[derive(Clone, Copy, Debug, PartialEq, Eq)]
pub enum Equality {
    /// The answer.
    Is(bool),
    /// The operand of this side goes through ToPrimitive first, and then `==` is asked again.
    Converts(Side, Hint),
}

/// `==` (11.9.3), which throws exactly where the number of a text is asked and outside the profile.
pub fn equal(a: &Value, b: &Value) -> Result<Equality, RangeThrow>
    ensures { MatchResult result (λ e. rows.equal a.now b.now ≡ Some e) (λ _. rows.equal a.now b.now ≡ None) }
{
    match (a.is_primitive(), b.is_primitive()) {
        (true, true) => Ok(Equality::Is(equal_primitives(a, b)?)),
        (true, false) => Ok(equal_object(a, Side::Right)),
        (false, true) => Ok(equal_object(b, Side::Left)),
        (false, false) => Ok(Equality::Is(same(a, b))),
    }
}

// Of a primitive value and an object, which stands on this side.
fn equal_object(value: &Value, side: Side) -> Equality
    ensures { result ≡ rows.equal_object value.now side }
{
    if is_missing(value) {
        Equality::Is(false)
    } else {
        Equality::Converts(side, Hint::Default)
    }
}

/// `==` of primitive values.
pub fn equal_primitives(a: &Value, b: &Value) -> Result<bool, RangeThrow>
    requires left { IsPrimitive a.now }
    requires right { IsPrimitive b.now }
    ensures { MatchResult result (λ e. rows.equal_primitives a.now b.now ≡ Some e) (λ _. rows.equal_primitives a.now b.now ≡ None) }
{
    if is_missing(a) || is_missing(b) {
        return Ok(is_missing(a) && is_missing(b));
    }
    match (as_text(a), as_text(b)) {
        (Some(s), Some(t)) => Ok(s == t),
        _ => Ok(to_number(a)?.equals(to_number(b)?)),
    }
}
