// The types of values, in words.
ghost use Rattle.std.specs.Prelude.{◌≡◌, IfOk, IfSome};
ghost use Rattle.std.specs.Option.{option_copied};
ghost use Rattle.js_value.specs.Image.{image};
ghost use Rattle.js_heap.specs.Closed.{IsThere};
ghost use Rattle.js_operations.specs.Unary as unary_operators;

use js_heap::Heap;
use js_reference::is_callable;
use js_value::Value;
use mug_text::{JText, NoMemory};
use std::alloc::Global;

const UNDEFINED: [u16; 9] = [0x75, 0x6E, 0x64, 0x65, 0x66, 0x69, 0x6E, 0x65, 0x64];

const OBJECT: [u16; 6] = [0x6F, 0x62, 0x6A, 0x65, 0x63, 0x74];

const BOOLEAN: [u16; 7] = [0x62, 0x6F, 0x6F, 0x6C, 0x65, 0x61, 0x6E];

const NUMBER: [u16; 6] = [0x6E, 0x75, 0x6D, 0x62, 0x65, 0x72];

const STRING: [u16; 6] = [0x73, 0x74, 0x72, 0x69, 0x6E, 0x67];

const FUNCTION: [u16; 8] = [0x66, 0x75, 0x6E, 0x63, 0x74, 0x69, 0x6F, 0x6E];

// The word for the type of a value.
fn type_word(heap: &Heap, value: &Value) -> &'static [u16]
    requires { IsThere heap.now value.now }
    ensures { result.now ≡ unary_operators.image_type heap.now (image value.now) }
{
    match value {
        Value::Undefined => &UNDEFINED,
        Value::Null => &OBJECT,
        Value::Bool(_) => &BOOLEAN,
        Value::Num(_) => &NUMBER,
        Value::Text(_) => &STRING,
        Value::Ref(_) | Value::Native(_) | Value::Wrap(_, _) => {
            if is_callable(heap, value) {
                &FUNCTION
            } else {
                &OBJECT
            }
        }
    }
}

/// The type of a value (ECMA-262 edition 5.1, 11.4.3).
pub fn type_of(alloc: Global, heap: &Heap, value: &Value) -> Result<Value, NoMemory>
    requires { IsThere heap.now value.now }
    ensures { IfOk result (λ v. v ≡ unary_operators.type_of heap.now value.now) }
{
    let text = JText::from_units(alloc, type_word(heap, value))?;
    Ok(Value::Text(text))
}

/// The type of what a name means; one that is bound nowhere has the type of undefined.
pub fn type_of_option(alloc: Global, heap: &Heap, value: Option<&Value>) -> Result<Value, NoMemory>
    requires { IfSome value (λ v. IsThere heap.now v.now) }
    ensures { IfOk result (λ v. v
        ≡ unary_operators.type_of_option heap.now (option_copied value.entry)) }
{
    match value {
        Some(value) => type_of(alloc, heap, value),
        None => Ok(Value::Text(JText::from_units(alloc, &UNDEFINED)?)),
    }
}
