// The numbers and texts of primitive values (ECMA-262 edition 5.1, 9.3 and 9.8).
ghost use Rattle.std.specs.Prelude.{◌≡◌, Some, None, IfOk, MatchResult};
ghost use Rattle.std.specs.Option.{option_copied};
ghost use Rattle.js_value.specs.Image.{IsPrimitive};
ghost use Rattle.js_ops.specs.Convert as spec;

use crate::RangeThrow;
use js_value::{Num, Value, to_number_of_text};
use mug_text::{JText, NoMemory, number_text};
use std::alloc::Global;

/// ToNumber (ECMA-262 edition 5.1, 9.3), which throws exactly where the number of a text is outside the profile.
pub fn to_number(value: &Value) -> Result<Num, RangeThrow>
    requires { IsPrimitive value.now }
    ensures { MatchResult result (λ n. spec.to_number value.now ≡ Some n) (λ _. spec.to_number value.now ≡ None) }
{
    let number = match value {
        Value::Null | Value::Bool(false) => Num::whole(0),
        Value::Bool(true) => Num::whole(1),
        Value::Num(n) => Some(*n),
        Value::Text(t) => to_number_of_text(t),
        Value::Undefined | Value::Ref(_) | Value::Native(_) | Value::Wrap(_, _) => Some(Num::NaN),
    };
    number.ok_or(RangeThrow)
}

/// ToString (ECMA-262 edition 5.1, 9.8).
pub fn to_text(alloc: Global, value: &Value) -> Result<JText, NoMemory>
    requires { IsPrimitive value.now }
    ensures { IfOk result (λ t. t ≡ spec.to_text value.now) }
{
    match value {
        Value::Undefined => JText::from_units(alloc, &UNDEFINED),
        Value::Null => JText::from_units(alloc, &NULL),
        Value::Bool(true) => JText::from_units(alloc, &TRUE),
        Value::Bool(false) => JText::from_units(alloc, &FALSE),
        Value::Num(Num::Whole(n)) => number_text(alloc, n.get()),
        Value::Num(Num::NaN) => JText::from_units(alloc, &NAN),
        Value::Text(t) => t.copy(),
        Value::Ref(_) | Value::Native(_) | Value::Wrap(_, _) => JText::from_units(alloc, &[]),
    }
}

const UNDEFINED: [u16; 9] = [0x75, 0x6E, 0x64, 0x65, 0x66, 0x69, 0x6E, 0x65, 0x64];

const NULL: [u16; 4] = [0x6E, 0x75, 0x6C, 0x6C];

const TRUE: [u16; 4] = [0x74, 0x72, 0x75, 0x65];

const FALSE: [u16; 5] = [0x66, 0x61, 0x6C, 0x73, 0x65];

const NAN: [u16; 3] = [0x4E, 0x61, 0x4E];

// The text that the value is.
pub(crate) fn as_text(value: &Value) -> Option<&JText>
    ensures { option_copied result ≡ spec.as_text value.now }
{
    match value {
        Value::Text(t) => Some(t),
        _ => None,
    }
}

// Whether the value is a text.
pub(crate) fn is_text(value: &Value) -> bool
    ensures { result ≡ spec.is_text value.now }
{
    matches!(value, Value::Text(_))
}

// Whether the value is undefined or null.
pub(crate) fn is_missing(value: &Value) -> bool
    ensures { result ≡ spec.is_missing value.now }
{
    matches!(value, Value::Undefined | Value::Null)
}
