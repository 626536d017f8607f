// Operators over numbers, and texts by `+`; none is given where a result or an operand's number is
// outside the profile.
ghost use Rattle.std.specs.Prelude.{◌≡◌, IfOk, IfSome};
ghost use Rattle.js_value.specs.Image.{IsPrimitive};
ghost use Rattle.js_ops.specs.Rows as rows;

use js_ops::{AddThrow, Arith, Bits, add, arith, bits};
use js_value::Value;
use mug_text::NoMemory;
use std::alloc::Global;

// `+` (ECMA-262 edition 5.1, 11.6.1).
pub(crate) fn sum(alloc: Global, left: &Value, right: &Value) -> Result<Option<Value>, NoMemory>
    requires left { IsPrimitive left.now }
    requires right { IsPrimitive right.now }
    ensures value { IfOk result (λ o. o ≡ rows.add left.now right.now) }
    ensures primitive { IfOk result (λ o. IfSome o (λ v. IsPrimitive v)) }
{
    match add(alloc, left, right) {
        Ok(value) => Ok(Some(value)),
        Err(AddThrow::Range) => Ok(None),
        Err(AddThrow::NoMemory) => Err(NoMemory),
    }
}

// `-`, `*`, `/` and `%` (11.6.2, 11.5).
pub(crate) fn arithmetic(operator: Arith, left: &Value, right: &Value) -> Option<Value>
    requires left { IsPrimitive left.now }
    requires right { IsPrimitive right.now }
    ensures value { result ≡ rows.arith operator left.now right.now }
    ensures primitive { IfSome result (λ v. IsPrimitive v) }
{
    arith(operator, left, right).ok()
}

// `&`, `|`, `^`, `<<`, `>>` and `>>>` (11.10, 11.7).
pub(crate) fn bitwise(operator: Bits, left: &Value, right: &Value) -> Option<Value>
    requires left { IsPrimitive left.now }
    requires right { IsPrimitive right.now }
    ensures value { result ≡ rows.bits operator left.now right.now }
    ensures primitive { IfSome result (λ v. IsPrimitive v) }
{
    bits(operator, left, right).ok()
}
