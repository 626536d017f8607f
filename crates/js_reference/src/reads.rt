// The properties of values, and how one is read.
ghost use Rattle.std.specs.Prelude.{◌≡◌, ◌∷◌, IfOk, OnOk};
ghost use Rattle.js_value.specs.declared.value.Value.TheVariants.{Ref};
ghost use Rattle.js_host.specs.Names.{option_names};
ghost use Rattle.js_host.specs.There.{AreThere};
ghost use Rattle.js_reference.specs.Answers.{Gives, answered_names};
ghost use Rattle.js_reference.specs.Errors.{root_object};
ghost use Rattle.js_reference.specs.Hosted.{hosted};
ghost use Rattle.js_reference.specs.Later.{IsLater};
ghost use Rattle.js_reference.specs.Properties as properties;

use crate::own::own_property;
use crate::{Answered, ErrorName, thrown};
use js_heap::{Heap, Root, chains_lead_on};
use js_host::Host;
use js_table::index_of;
use js_value::{Callee, Num, ObjId, Value};
use mug_text::{JText, NoMemory};
use std::alloc::Global;

// `length`
pub(crate) const LENGTH: [u16; 6] = [0x6C, 0x65, 0x6E, 0x67, 0x74, 0x68];

// The number of a text's units; there is no memory for a text of more than 2^32 - 1.
fn text_length(text: &JText) -> Result<Value, NoMemory>
    ensures { IfOk result (λ v. v ≡ properties.text_length text.now) }
{
    match u32::try_from(text.len()) {
        Ok(length) => Ok(Value::Num(Num::Whole(length.into()))),
        Err(_) => Err(NoMemory),
    }
}

// The text of the unit at the index.
fn text_unit(alloc: Global, text: &JText, index: u32) -> Result<Option<Value>, NoMemory>
    ensures { IfOk result (λ v. v ≡ properties.text_unit text.now index) }
{
    let index = index as usize;
    if index < text.len() {
        let unit = JText::from_units(alloc, &[text.unit(index)])?;
        Ok(Some(Value::Text(unit)))
    } else {
        Ok(None)
    }
}

// A text's own property.
pub(crate) fn text_own(alloc: Global, text: &JText, key: &JText) -> Result<Option<Value>, NoMemory>
    ensures { IfOk result (λ v. v ≡ properties.text_own text.now key.now) }
{
    if key.as_slice() == LENGTH.as_slice() {
        return Ok(Some(text_length(text)?));
    }
    match index_of(key) {
        Some(index) => text_unit(alloc, text, index),
        None => Ok(None),
    }
}

// The value of the property of the first object along the prototypes that has it.
pub(crate) fn object_property<H: Host>(
    host: &H,
    heap: &Heap,
    object: ObjId,
    key: &JText,
) -> Result<Option<Value>, NoMemory>
    requires { AreThere heap.now (Ref object ∷ H.names.host host.now) }
    ensures value { IfOk result (λ v. v ≡
        properties.object_property (hosted H.rows) heap.now host.now object key.now) }
    ensures there { IfOk result (λ v. AreThere heap.now (option_names v (H.names.host host.now))) }
{
    chains_lead_on();
    let _objects = heap.object_count();
    let mut at = object;
    loop {
        if let Some(value) = own_property(host, heap, at, key)? {
            return Ok(Some(value));
        }
        match heap.prototype(at) {
            Some(prototype) => at = prototype,
            None => return Ok(None),
        }
    }
}

// The same of one of the objects that a heap holds from the start.
fn root_property<H: Host>(
    host: &H,
    heap: &Heap,
    root: Root,
    key: &JText,
) -> Result<Option<Value>, NoMemory>
    requires { AreThere heap.now (H.names.host host.now) }
    ensures value { IfOk result (λ v. v ≡
        properties.object_property (hosted H.rows) heap.now host.now (root_object root) key.now) }
    ensures there { IfOk result (λ v. AreThere heap.now (option_names v (H.names.host host.now))) }
{
    let object = heap.root(root);
    object_property(host, heap, object, key)
}

// A text's own property, or else that of the prototype of texts.
fn text_property<H: Host>(
    alloc: Global,
    host: &H,
    heap: &Heap,
    text: &JText,
    key: &JText,
) -> Result<Option<Value>, NoMemory>
    requires { AreThere heap.now (H.names.host host.now) }
    ensures value { IfOk result (λ v. v ≡
        properties.text_property (hosted H.rows) heap.now host.now text.now key.now) }
    ensures there { IfOk result (λ v. AreThere heap.now (option_names v (H.names.host host.now))) }
{
    match text_own(alloc, text, key)? {
        Some(value) => Ok(Some(value)),
        None => root_property(host, heap, Root::StringPrototype, key),
    }
}

/// The value of a property of a value, where there is one.
pub fn property<H: Host>(
    alloc: Global,
    host: &H,
    heap: &Heap,
    base: &Value,
    key: &JText,
) -> Result<Option<Value>, NoMemory>
    requires { AreThere heap.now (base.now ∷ H.names.host host.now) }
    ensures value { IfOk result (λ v. v ≡
        properties.property (hosted H.rows) heap.now host.now base.now key.now) }
    ensures there { IfOk result (λ v. AreThere heap.now (option_names v (H.names.host host.now))) }
{
    match base {
        Value::Undefined | Value::Null => Ok(None),
        Value::Bool(_) => root_property(host, heap, Root::BooleanPrototype, key),
        Value::Num(_) => root_property(host, heap, Root::NumberPrototype, key),
        Value::Text(text) => text_property(alloc, host, heap, text, key),
        Value::Native(_) | Value::Wrap(_, Callee::Native(_)) => {
            root_property(host, heap, Root::FunctionPrototype, key)
        }
        Value::Ref(object) | Value::Wrap(_, Callee::Ref(object)) => {
            object_property(host, heap, *object, key)
        }
    }
}

/// The value of a property, undefined where there is none. Undefined and null have none to read,
/// and throw.
pub fn read<H: Host>(
    alloc: Global,
    host: &H,
    heap: &mut Heap,
    base: &Value,
    key: &JText,
) -> Result<Answered, NoMemory>
    requires { AreThere heap.old (base.now ∷ H.names.host host.now) }
    ensures value { IfOk result (λ a. Gives
        (properties.read (hosted H.rows) heap.old host.now base.now key.now) a heap.new host.now) }
    ensures there { IfOk result (λ a.
        AreThere heap.new (answered_names a (H.names.host host.now))) }
    ensures more { OnOk result (IsLater heap.old heap.new) }
{
    if matches!(base, Value::Undefined | Value::Null) {
        return thrown(alloc, host, heap, ErrorName::TypeError);
    }
    match property(alloc, host, heap, base, key)? {
        Some(value) => Ok(Answered::Returns(value)),
        None => Ok(Answered::Returns(Value::Undefined)),
    }
}
