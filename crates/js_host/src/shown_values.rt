// How values are shown.
ghost use Rattle.std.specs.Prelude.{◌≡◌, ◌<◌, codes, length, IfOk};
ghost use Rattle.std.specs.Option.{option_and_then, option_copied};
ghost use Rattle.js_heap.specs.Closed.{IsThere};
ghost use Rattle.js_heap.specs.Objects as objects;
ghost use Rattle.js_host.specs.Shown as spec;
ghost use Rattle.js_ops.specs.Convert.{as_text};

use js_heap::{Class, Heap};
use js_ops::to_text;
use js_value::{Callee, ObjId, Value};
use mug_text::{JText, NoMemory};
use std::alloc::Global;

// `[function]`
const FUNCTION: [u16; 10] = [0x5B, 0x66, 0x75, 0x6E, 0x63, 0x74, 0x69, 0x6F, 0x6E, 0x5D];

// `[array]`
const ARRAY: [u16; 7] = [0x5B, 0x61, 0x72, 0x72, 0x61, 0x79, 0x5D];

// `[object]`
const OBJECT: [u16; 8] = [0x5B, 0x6F, 0x62, 0x6A, 0x65, 0x63, 0x74, 0x5D];

// `name`
const NAME: [u16; 4] = [0x6E, 0x61, 0x6D, 0x65];

// `message`
const MESSAGE: [u16; 7] = [0x6D, 0x65, 0x73, 0x73, 0x61, 0x67, 0x65];

// `Error`
const ERROR: [u16; 5] = [0x45, 0x72, 0x72, 0x6F, 0x72];

// `: `
const COLON: [u16; 2] = [0x3A, 0x20];

// `uncaught `
const UNCAUGHT: [u16; 9] = [0x75, 0x6E, 0x63, 0x61, 0x75, 0x67, 0x68, 0x74, 0x20];

// The text that the value is, where it is one.
fn text_in(value: Option<&Value>) -> Option<&JText>
    ensures { option_copied result ≡ option_and_then as_text (option_copied value.entry) }
{
    match value {
        Some(Value::Text(text)) => Some(text),
        _ => None,
    }
}

// An error's name, or `Error`.
fn name_shown(alloc: Global, name: Option<&Value>) -> Result<JText, NoMemory>
    ensures { IfOk result (λ t. t ≡ spec.name_shown (option_copied name.entry)) }
{
    match text_in(name) {
        Some(name) => name.copy(),
        None => JText::from_units(alloc, &ERROR),
    }
}

// What stands behind an error's name.
fn message_shown(alloc: Global, message: Option<&Value>) -> Result<JText, NoMemory>
    ensures { IfOk result (λ t. t ≡ spec.message_shown
        (option_and_then as_text (option_copied message.entry))) }
{
    match text_in(message) {
        Some(message) if message.len() != 0 => { JText::from_units(alloc, &COLON)?.concat(message) }
        _ => JText::from_units(alloc, &[]),
    }
}

// An error's name and message.
fn error_shown(alloc: Global, heap: &Heap, error: ObjId) -> Result<JText, NoMemory>
    requires { error.number < length heap.now.objects }
    ensures { IfOk result (λ t. t ≡ spec.error_shown (objects.get heap.now error (codes "name"))
        (objects.get heap.now error (codes "message"))) }
{
    let name_key = JText::from_units(alloc, &NAME)?;
    let message_key = JText::from_units(alloc, &MESSAGE)?;
    let name = name_shown(alloc, heap.get(error, &name_key))?;
    name.concat(&message_shown(alloc, heap.get(error, &message_key))?)
}

// An object by its class.
fn object_shown(alloc: Global, heap: &Heap, object: ObjId) -> Result<JText, NoMemory>
    requires { object.number < length heap.now.objects }
    ensures { IfOk result (λ t. t ≡ spec.object_shown heap.now object) }
{
    match heap.class(object) {
        Class::Array => JText::from_units(alloc, &ARRAY),
        Class::Error => error_shown(alloc, heap, object),
        Class::Function(_) | Class::Bound(_) | Class::Builtin(Some(_)) => {
            JText::from_units(alloc, &FUNCTION)
        }
        _ => JText::from_units(alloc, &OBJECT),
    }
}

/// How a value is shown on a console line, in the line of a throw that nothing caught, and in the
/// text of an error: a text as it is, an object by its class, an error by its name and message.
pub fn shown(alloc: Global, heap: &Heap, value: &Value) -> Result<JText, NoMemory>
    requires { IsThere heap.now value.now }
    ensures { IfOk result (λ t. t ≡ spec.shown heap.now value.now) }
{
    match value {
        Value::Ref(object) | Value::Wrap(_, Callee::Ref(object)) => {
            object_shown(alloc, heap, *object)
        }
        Value::Native(_) | Value::Wrap(_, Callee::Native(_)) => {
            JText::from_units(alloc, &FUNCTION)
        }
        _ => to_text(alloc, value),
    }
}

/// The console line of a throw that nothing caught.
pub fn uncaught_shown(alloc: Global, heap: &Heap, value: &Value) -> Result<JText, NoMemory>
    requires { IsThere heap.now value.now }
    ensures { IfOk result (λ t. t ≡ spec.uncaught_shown heap.now value.now) }
{
    JText::from_units(alloc, &UNCAUGHT)?.concat(&shown(alloc, heap, value)?)
}
