// The operators (ECMA-262 edition 5.1, 11.5 to 11.10).
ghost use Rattle.std.specs.Prelude.{◌≡◌, ◌++◌, Some, None, IfOk, MatchResult};
ghost use Rattle.js_value.specs.Image.{IsPrimitive};
ghost use Rattle.js_ops.specs.Convert as texts;
ghost use Rattle.js_ops.specs.Rows as rows;

use crate::convert::{as_text, is_text, to_number, to_text};
use crate::number::{Arith, Bits, combine, compute, is_below, sum, to_uint32};
use crate::{AddThrow, RangeThrow};
use js_value::{Num, Value};
use mug_text::TEXT_LIMIT;
use std::alloc::Global;

/// `+` (11.6.1): the two texts joined where one operand is a text, and else the sum.
pub fn add(alloc: Global, a: &Value, b: &Value) -> Result<Value, AddThrow>
    requires left { IsPrimitive a.now }
    requires right { IsPrimitive b.now }
    ensures value { IfOk result (λ v. rows.add a.now b.now ≡ Some v) }
    ensures range { result ≡ Err AddThrow.Range → rows.add a.now b.now ≡ None }
{
    if is_text(a) || is_text(b) {
        return join(alloc, a, b);
    }
    match sum(to_number(a)?, to_number(b)?) {
        Some(n) => Ok(Value::Num(n)),
        None => Err(AddThrow::Range),
    }
}

// The texts of both.
fn join(alloc: Global, a: &Value, b: &Value) -> Result<Value, AddThrow>
    requires left { IsPrimitive a.now }
    requires right { IsPrimitive b.now }
    ensures value { IfOk result (λ v. rows.joined (texts.to_text a.now ++ texts.to_text b.now) ≡ Some v) }
    ensures range { result ≡ Err AddThrow.Range → rows.joined (texts.to_text a.now ++ texts.to_text b.now) ≡ None }
{
    let front = to_text(alloc, a)?;
    let back = to_text(alloc, b)?;
    if front.as_slice().len() + back.as_slice().len() > TEXT_LIMIT {
        return Err(AddThrow::Range);
    }
    Ok(Value::Text(front.concat(&back)?))
}

/// `-`, `*`, `/` and `%` (11.6.2, 11.5), which throw exactly where the result or an operand's number is outside the profile.
pub fn arith(op: Arith, a: &Value, b: &Value) -> Result<Value, RangeThrow>
    requires left { IsPrimitive a.now }
    requires right { IsPrimitive b.now }
    ensures { MatchResult result (λ v. rows.arith op a.now b.now ≡ Some v) (λ _. rows.arith op a.now b.now ≡ None) }
{
    match compute(op, to_number(a)?, to_number(b)?) {
        Some(n) => Ok(Value::Num(n)),
        None => Err(RangeThrow),
    }
}

/// `&`, `|`, `^`, `<<`, `>>` and `>>>` (11.10, 11.7), which throw exactly where an operand's number is outside the profile.
pub fn bits(op: Bits, a: &Value, b: &Value) -> Result<Value, RangeThrow>
    requires left { IsPrimitive a.now }
    requires right { IsPrimitive b.now }
    ensures { MatchResult result (λ v. rows.bits op a.now b.now ≡ Some v) (λ _. rows.bits op a.now b.now ≡ None) }
{
    let x = to_uint32(to_number(a)?);
    let y = to_uint32(to_number(b)?);
    Ok(Value::Num(Num::Whole(combine(op, x, y))))
}

/// `<` (11.8.5): `Ok(None)` exactly where NaN takes part, and a throw exactly where an operand's number is outside the profile.
pub fn less(a: &Value, b: &Value) -> Result<Option<bool>, RangeThrow>
    requires left { IsPrimitive a.now }
    requires right { IsPrimitive b.now }
    ensures { MatchResult result (λ r. rows.less a.now b.now ≡ Some r) (λ _. rows.less a.now b.now ≡ None) }
{
    match (as_text(a), as_text(b)) {
        (Some(s), Some(t)) => Ok(Some(s < t)),
        _ => Ok(is_below(to_number(a)?, to_number(b)?)),
    }
}
