// What for-in goes through.
ghost use Rattle.std.specs.Prelude.{◌≡◌, ◌++◌, IfOk, decimal, length};
ghost use Rattle.js_heap.specs.Closed.{IsThere};
ghost use Rattle.js_heap.specs.Keys as listing;
ghost use Rattle.js_reference.specs.Errors.{root_object};
ghost use Rattle.js_reference.specs.Keys as keys;

use js_heap::{Heap, Root};
use js_table::Spelling;
use js_value::{Callee, Value};
use mug_text::{JText, Listed, NoMemory};
use std::alloc::Global;

// The indices of a text of so many units.
fn indices(alloc: Global, count: u32) -> Result<Listed<JText>, NoMemory>
    ensures { IfOk result (λ names. names ≡ keys.indices_from 0 count) }
{
    let mut names = Listed::new(alloc);
    for index in 0..count {
        names.push(JText::from_units(alloc, Spelling::of(index).as_slice())?)?;
    }
    Ok(names)
}

// These names, behind those.
fn joined(mut names: Listed<JText>, others: &Listed<JText>) -> Result<Listed<JText>, NoMemory>
    ensures { IfOk result (λ all. all ≡ names ++ others.now) }
{
    for name in others.as_slice() {
        names.push(name.copy()?)?;
    }
    Ok(names)
}

// The names of one of the objects that a heap holds from the start.
fn root_keys(heap: &Heap, root: Root) -> Result<Listed<JText>, NoMemory>
    ensures { IfOk result (λ names. names ≡ listing.keys heap.now (root_object root)) }
{
    let object = heap.root(root);
    heap.keys(object)
}

// A text's indices, and then the names of the prototype of texts; there is no memory for a text of
// more than 2^32 - 1 units.
fn text_keys(alloc: Global, heap: &Heap, text: &JText) -> Result<Listed<JText>, NoMemory>
    ensures { IfOk result (λ names. names ≡ keys.text_keys heap.now text.now) }
{
    let Ok(count) = u32::try_from(text.len()) else {
        return Err(NoMemory);
    };
    let others = root_keys(heap, Root::StringPrototype)?;
    joined(indices(alloc, count)?, &others)
}

/// The names that for-in goes through in a value.
pub fn keys_in(alloc: Global, heap: &Heap, base: &Value) -> Result<Listed<JText>, NoMemory>
    requires { IsThere heap.now base.now }
    ensures { IfOk result (λ names. names ≡ keys.keys_in heap.now base.now) }
{
    match base {
        Value::Undefined | Value::Null => Ok(Listed::new(alloc)),
        Value::Bool(_) => root_keys(heap, Root::BooleanPrototype),
        Value::Num(_) => root_keys(heap, Root::NumberPrototype),
        Value::Text(text) => text_keys(alloc, heap, text),
        Value::Native(_) | Value::Wrap(_, Callee::Native(_)) => {
            root_keys(heap, Root::FunctionPrototype)
        }
        Value::Ref(object) | Value::Wrap(_, Callee::Ref(object)) => heap.keys(*object),
    }
}
