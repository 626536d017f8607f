// What can be called.
ghost use Rattle.std.specs.Prelude.{◌≡◌, ◌<◌, Some, length};
ghost use Rattle.js_heap.specs.Closed.{IsThere};
ghost use Rattle.js_reference.specs.Callables as callables;

use js_heap::{Class, Heap};
use js_value::{Callee, NativeId, ObjId, Value};

fn class_is_callable(class: &Class) -> bool
    ensures { result ≡ callables.class_is_callable class.now }
{
    matches!(
        class,
        Class::Function(_) | Class::Bound(_) | Class::Builtin(Some(_))
    )
}

fn class_native(class: &Class) -> Option<NativeId>
    ensures { result ≡ callables.class_native class.now }
{
    match class {
        Class::Builtin(native) => *native,
        _ => None,
    }
}

/// The object that a value is, which is no native function without an object.
pub fn as_object(value: &Value) -> Option<ObjId>
    ensures { result ≡ callables.as_object value.now }
{
    match value {
        Value::Ref(object) | Value::Wrap(_, Callee::Ref(object)) => Some(*object),
        _ => None,
    }
}

/// Whether the value can be called (ECMA-262 edition 5.1, 9.11).
pub fn is_callable(heap: &Heap, value: &Value) -> bool
    requires { IsThere heap.now value.now }
    ensures { result ≡ callables.is_callable heap.now value.now }
{
    match value {
        Value::Ref(object) | Value::Wrap(_, Callee::Ref(object)) => {
            class_is_callable(heap.class(*object))
        }
        Value::Native(_) | Value::Wrap(_, Callee::Native(_)) => true,
        _ => false,
    }
}

/// The native that a call of the value runs.
pub fn native_of(heap: &Heap, value: &Value) -> Option<NativeId>
    requires { IsThere heap.now value.now }
    ensures { result ≡ callables.native_of heap.now value.now }
{
    match value {
        Value::Ref(object) | Value::Wrap(_, Callee::Ref(object)) => {
            class_native(heap.class(*object))
        }
        Value::Native(native) | Value::Wrap(_, Callee::Native(native)) => Some(*native),
        _ => None,
    }
}

/// Whether the value is a date (ECMA-262 edition 5.1, 15.9).
pub fn is_date(heap: &Heap, value: &Value) -> bool
    requires { IsThere heap.now value.now }
    ensures { result ≡ callables.is_date heap.now value.now }
{
    match as_object(value) {
        Some(object) => matches!(heap.class(object), Class::Date(_)),
        None => false,
    }
}
