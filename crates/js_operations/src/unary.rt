// Operators in front of one operand.
ghost use Rattle.std.specs.Prelude.{◌≡◌, ◌∷◌, List, IfOk, OnOk, IfSome};
ghost use Rattle.std.specs.Option.{option_map};
ghost use Rattle.js_value.specs.Image.{IsPrimitive};
ghost use Rattle.js_value.specs.Numeral as numerals;
ghost use Rattle.js_value.specs.declared.value.Value.{Value as Held};
ghost use Rattle.js_heap.specs.Closed.{IsThere};
ghost use Rattle.js_host.specs.There.{AreThere};
ghost use Rattle.js_ops.specs.Convert as convert;
ghost use Rattle.js_reference.specs.Answers.{Gives, answered_names};
ghost use Rattle.js_reference.specs.Later.{IsLater};
ghost use Rattle.js_operations.specs.Converted.{IsConverted};
ghost use Rattle.js_operations.specs.Unary as unary_operators;

use crate::range::or_range_error;
use crate::type_of;
use js_heap::Heap;
use js_ops::{to_int32, to_number};
use js_reference::Answered;
use js_tree::UnaryOperator;
use js_value::{Num, Value};
use mug_text::NoMemory;
use std::alloc::Global;

// `~` (ECMA-262 edition 5.1, 11.4.8).
fn complement(number: Num) -> Value
    ensures { result ≡ unary_operators.complement number }
{
    Value::Num(Num::Whole((!to_int32(number)).into()))
}

// `+` (11.4.6); none where the number of a text is outside the profile.
fn plus(value: &Value) -> Option<Value>
    requires { IsPrimitive value.now }
    ensures value { result ≡ option_map Value.Num (convert.to_number value.now) }
    ensures primitive { IfSome result (λ v. IsPrimitive v) }
{
    match to_number(value) {
        Ok(number) => Some(Value::Num(number)),
        Err(_) => None,
    }
}

// `-` (11.4.7).
fn minus(value: &Value) -> Option<Value>
    requires { IsPrimitive value.now }
    ensures value { result ≡
        option_map (λ n. Value.Num (numerals.negated n)) (convert.to_number value.now) }
    ensures primitive { IfSome result (λ v. IsPrimitive v) }
{
    match to_number(value) {
        Ok(number) => Some(Value::Num(number.negated())),
        Err(_) => None,
    }
}

// `~`.
fn bit_not(value: &Value) -> Option<Value>
    requires { IsPrimitive value.now }
    ensures value { result ≡ option_map unary_operators.complement (convert.to_number value.now) }
    ensures primitive { IfSome result (λ v. IsPrimitive v) }
{
    match to_number(value) {
        Ok(number) => Some(complement(number)),
        Err(_) => None,
    }
}

/// What an operator gives of its one operand, which is converted (11.4); outside the profile it
/// throws a RangeError. `delete` of what is no property is true.
pub fn unary_operate<H>(
    alloc: Global,
    host: &H,
    heap: &mut Heap,
    operator: UnaryOperator,
    value: &Value,
) -> Result<Answered, NoMemory>
    requires there { IsThere heap.old value.now }
    requires converted { IsConverted (unary_operators.unary_wants operator 0) value.now }
    ensures value { IfOk result (λ a. Gives
        (unary_operators.unary_operate heap.old host.now operator value.now)
        a heap.new host.now) }
    ensures there { (vs : List Held) → AreThere heap.old vs
        → IfOk result (λ a. AreThere heap.new (answered_names a vs)) }
    ensures more { OnOk result (IsLater heap.old heap.new) }
{
    let given = match operator {
        UnaryOperator::Delete => Some(Value::Bool(true)),
        UnaryOperator::Void => Some(Value::Undefined),
        UnaryOperator::TypeOf => Some(type_of(alloc, heap, value)?),
        UnaryOperator::Plus => plus(value),
        UnaryOperator::Minus => minus(value),
        UnaryOperator::BitNot => bit_not(value),
        UnaryOperator::Not => Some(Value::Bool(!value.to_boolean())),
    };
    or_range_error(alloc, host, heap, given)
}
