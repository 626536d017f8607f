// Array and object literals.
ghost use Rattle.std.specs.Prelude.{◌≡◌, ◌<◌, true, false, Some, List, IfOk, OnOk, is_some};
ghost use Rattle.std.specs.Prelude.{length, map};
ghost use Rattle.js_value.specs.declared.value.Value.{Value as Held};
ghost use Rattle.js_heap.specs.Closed.{IsThere};
ghost use Rattle.js_heap.specs.Puts.{put};
ghost use Rattle.js_host.specs.There.{AreThere};
ghost use Rattle.js_reference.specs.Answers.{Gives, answered_names};
ghost use Rattle.js_reference.specs.Callables.{class_at};
ghost use Rattle.js_reference.specs.Functions.{is_array_at};
ghost use Rattle.js_reference.specs.Later.{IsLater};
ghost use Rattle.js_operations.specs.Literals as literals;

use js_heap::{Class, Heap, HeapFault, PutFault, Root};
use js_reference::{Answered, ErrorName, thrown};
use js_tree::{Entry, NodeId};
use js_value::{ObjId, Value};
use mug_text::{JText, NoMemory};
use std::alloc::Global;

// Gives an array its elements, and counts them all; one that isn't there is a hole. There is no
// memory for more than 2^32 - 1.
fn put_elements(
    heap: &mut Heap,
    array: ObjId,
    elements: &[Option<NodeId>],
    values: &[Value],
) -> Result<(), NoMemory>
    requires object { array.number < length heap.old.objects }
    requires array { class_at heap.old array ≡ Some Class.Array }
    requires values { AreThere heap.old values.now }
    ensures put { OnOk result (heap.new
        ≡ literals.with_elements heap.old array 0 (map is_some elements.now) values.now) }
    ensures more { OnOk result (IsLater heap.old heap.new) }
{
    let Ok(count) = u32::try_from(elements.len()) else {
        return Err(NoMemory);
    };
    let mut values = values;
    for index in 0..count {
        if elements[index as usize].is_none() {
            continue;
        }
        let Some((value, behind)) = values.split_first() else {
            heap.set_length(array, index);
            return Ok(());
        };
        heap.put_at(array, index, value.copy()?, true)?;
        values = behind;
    }
    heap.set_length(array, count);
    Ok(())
}

/// An array literal (ECMA-262 edition 5.1, 11.1.4): the values stand in the places of the elements
/// that are there.
pub fn array_literal<H>(
    alloc: Global,
    host: &H,
    heap: &mut Heap,
    elements: &[Option<NodeId>],
    values: &[Value],
) -> Result<Answered, NoMemory>
    requires { AreThere heap.old values.now }
    ensures value { IfOk result (λ a. Gives
        (literals.array_literal heap.old host.now (map is_some elements.now) values.now)
        a heap.new host.now) }
    ensures there { (vs : List Held) → AreThere heap.old vs
        → IfOk result (λ a. AreThere heap.new (answered_names a vs)) }
    ensures more { OnOk result (IsLater heap.old heap.new) }
{
    let prototype = heap.root(Root::ArrayPrototype);
    match heap.new_object(Class::Array, Some(prototype)) {
        Ok(array) => {
            put_elements(heap, array, elements, values)?;
            Ok(Answered::Returns(Value::Ref(array)))
        }
        Err(HeapFault::Full) => thrown(alloc, host, heap, ErrorName::RangeError),
        Err(HeapFault::NoMemory) => Err(NoMemory),
    }
}

// Gives an object that is no array a property.
fn put_entry(heap: &mut Heap, object: ObjId, key: &JText, value: &Value) -> Result<(), NoMemory>
    requires object { object.number < length heap.old.objects }
    requires plain { is_array_at heap.old object ≡ false }
    requires value { IsThere heap.old value.now }
    ensures { OnOk result (heap.new ≡ put heap.old object key.now value.now true) }
{
    match heap.put(object, key, value.copy()?, true) {
        Ok(()) => Ok(()),
        Err(PutFault::BadLength) => unreachable!(),
        Err(PutFault::NoMemory) => Err(NoMemory),
    }
}

// Gives an object that is no array its entries; a later value of a key takes an earlier one's
// place.
fn put_entries(
    heap: &mut Heap,
    object: ObjId,
    entries: &[Entry],
    values: &[Value],
) -> Result<(), NoMemory>
    requires object { object.number < length heap.old.objects }
    requires plain { is_array_at heap.old object ≡ false }
    requires values { AreThere heap.old values.now }
    ensures put { OnOk result (heap.new
        ≡ literals.with_entries heap.old object (map (λ e. e.key) entries.now) values.now) }
    ensures more { OnOk result (IsLater heap.old heap.new) }
{
    let mut values = values;
    for entry in entries {
        let Some((value, behind)) = values.split_first() else {
            return Ok(());
        };
        put_entry(heap, object, &entry.key, value)?;
        values = behind;
    }
    Ok(())
}

/// An object literal (11.1.5) of the entries' values.
pub fn object_literal<H>(
    alloc: Global,
    host: &H,
    heap: &mut Heap,
    entries: &[Entry],
    values: &[Value],
) -> Result<Answered, NoMemory>
    requires { AreThere heap.old values.now }
    ensures value { IfOk result (λ a. Gives
        (literals.object_literal heap.old host.now (map (λ e. e.key) entries.now) values.now)
        a heap.new host.now) }
    ensures there { (vs : List Held) → AreThere heap.old vs
        → IfOk result (λ a. AreThere heap.new (answered_names a vs)) }
    ensures more { OnOk result (IsLater heap.old heap.new) }
{
    let prototype = heap.root(Root::ObjectPrototype);
    match heap.new_object(Class::Object, Some(prototype)) {
        Ok(object) => {
            put_entries(heap, object, entries, values)?;
            Ok(Answered::Returns(Value::Ref(object)))
        }
        Err(HeapFault::Full) => thrown(alloc, host, heap, ErrorName::RangeError),
        Err(HeapFault::NoMemory) => Err(NoMemory),
    }
}
