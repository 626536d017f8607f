// Errors.
ghost use Rattle.std.specs.Prelude.{◌≡◌, ◌≤◌, List, IfOk, OnOk, length};
ghost use Rattle.js_value.specs.declared.value.Value.{Value as Held};
ghost use Rattle.js_heap.specs.Closed.{IsThere};
ghost use Rattle.js_host.specs.There.{AreThere};
ghost use Rattle.js_reference.specs.Answers.{Gives, answered_names};
ghost use Rattle.js_reference.specs.Errors as errors;
ghost use Rattle.js_reference.specs.Later.{IsLater};

use crate::Answered;
use js_heap::{Class, Heap, HeapFault, Root};
use js_value::Value;
use mug_text::{JText, NoMemory};
use std::alloc::Global;

/// The errors that steps throw (ECMA-262 edition 5.1, 15.11.6).
#[derive(Clone, Copy, Debug, PartialEq, Eq)]
pub enum ErrorName {
    RangeError,
    ReferenceError,
    TypeError,
}

// Their names.
const RANGE_ERROR: [u16; 10] = [0x52, 0x61, 0x6E, 0x67, 0x65, 0x45, 0x72, 0x72, 0x6F, 0x72];

const REFERENCE_ERROR: [u16; 14] = [
    0x52, 0x65, 0x66, 0x65, 0x72, 0x65, 0x6E, 0x63, 0x65, 0x45, 0x72, 0x72, 0x6F, 0x72,
];

const TYPE_ERROR: [u16; 9] = [0x54, 0x79, 0x70, 0x65, 0x45, 0x72, 0x72, 0x6F, 0x72];

impl ErrorName {
    // What its objects have as their prototype.
    fn prototype(self) -> Root
        ensures { errors.root_object result ≡ errors.error_prototype self }
    {
        match self {
            ErrorName::RangeError => Root::RangeErrorPrototype,
            ErrorName::ReferenceError => Root::ReferenceErrorPrototype,
            ErrorName::TypeError => Root::TypeErrorPrototype,
        }
    }

    // The text of the name.
    fn text(self, alloc: Global) -> Result<JText, NoMemory>
        ensures { IfOk result (λ text. text ≡ errors.error_text self) }
    {
        match self {
            ErrorName::RangeError => JText::from_units(alloc, &RANGE_ERROR),
            ErrorName::ReferenceError => JText::from_units(alloc, &REFERENCE_ERROR),
            ErrorName::TypeError => JText::from_units(alloc, &TYPE_ERROR),
        }
    }
}

/// A new error object of the name, without a message of its own, or the text of the name where no
/// object fits.
pub fn new_error(alloc: Global, heap: &mut Heap, name: ErrorName) -> Result<Value, NoMemory>
    ensures value { IfOk result (λ v. v ≡ errors.error_value heap.old name) }
    ensures made { OnOk result (heap.new ≡ errors.with_error heap.old name) }
    ensures there { IfOk result (λ v. IsThere heap.new v) }
    ensures more { OnOk result (length heap.old.objects ≤ length heap.new.objects) }
{
    let prototype = heap.root(name.prototype());
    match heap.new_object(Class::Error, Some(prototype)) {
        Ok(object) => Ok(Value::Ref(object)),
        Err(HeapFault::Full) => Ok(Value::Text(name.text(alloc)?)),
        Err(HeapFault::NoMemory) => Err(NoMemory),
    }
}

/// An operation that throws the error.
pub fn thrown<H>(
    alloc: Global,
    host: &H,
    heap: &mut Heap,
    name: ErrorName,
) -> Result<Answered, NoMemory>
    ensures value { IfOk result (λ a.
        Gives (errors.thrown name heap.old host.now) a heap.new host.now) }
    ensures there { (vs : List Held) → AreThere heap.old vs
        → IfOk result (λ a. AreThere heap.new (answered_names a vs)) }
    ensures more { OnOk result (IsLater heap.old heap.new) }
{
    let error = new_error(alloc, heap, name)?;
    Ok(Answered::Throws(error))
}
