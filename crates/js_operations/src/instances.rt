// Whether an object is an instance of a function.
ghost use Rattle.std.specs.Prelude.{◌≡◌, ◌==◌, ◌<◌, ◌∷◌, ℕ, suc, Some, List, codes, length};
ghost use Rattle.std.specs.Prelude.{IfOk, OnOk, IfSome, IfNone};
ghost use Rattle.std.specs.List.{list_any};
ghost use Rattle.std.specs.Option.{option_map};
ghost use Rattle.js_value.specs.Image.{image};
ghost use Rattle.js_value.specs.declared.value.Value.{Value as Held};
ghost use Rattle.js_heap.specs.Chains.{IsBelow, chain};
ghost use Rattle.js_heap.specs.Closed.{IsThere};
ghost use Rattle.js_heap.specs.Objects.{id_number, prototype_number};
ghost use Rattle.js_host.specs.There.{AreThere};
ghost use Rattle.js_reference.specs.Answers.{Gives, answered_names};
ghost use Rattle.js_reference.specs.Hosted.{hosted};
ghost use Rattle.js_reference.specs.Later.{IsLater};
ghost use Rattle.js_reference.specs.Properties as properties;
ghost use Rattle.js_operations.specs.Operations as operations;

use js_heap::{Class, Heap, Root, chains_lead_on};
use js_host::Host;
use js_reference::{Answered, ErrorName, as_object, is_callable, property, thrown};
use js_value::{Callee, ObjId, Value};
use mug_text::{JText, NoMemory};
use std::alloc::Global;

// `prototype`
const PROTOTYPE: [u16; 9] = [0x70, 0x72, 0x6F, 0x74, 0x6F, 0x74, 0x79, 0x70, 0x65];

// What a bound function calls.
fn bound_target<'a>(heap: &'a Heap, function: &'a Value) -> Option<&'a Value>
    requires { IsThere heap.now function.now }
    ensures bound { IfSome result (λ f. (n : ℕ) →
        operations.target_to (suc n) heap.now function.now
        ≡ operations.target_to n heap.now f.now) }
    ensures unbound { IfNone result ((n : ℕ) →
        image (operations.target_to n heap.now function.now) ≡ image function.now) }
    ensures there { IfSome result (λ f. IsThere heap.now f.now) }
{
    let Some(object) = as_object(function) else {
        return None;
    };
    match heap.class(object) {
        Class::Bound(bound) => Some(&bound.f),
        _ => None,
    }
}

// What a function calls in the end, through bound functions (ECMA-262 edition 5.1, 15.3.4.5.3).
fn target<'a>(heap: &'a Heap, function: &'a Value) -> &'a Value
    requires { IsThere heap.now function.now }
    ensures target { image result.now ≡ image
        (operations.target_to (length heap.now.objects) heap.now function.now) }
    ensures there { IsThere heap.now result.now }
{
    let mut at = function;
    for _ in 0..heap.object_count() {
        match bound_target(heap, at) {
            Some(next) => at = next,
            None => return at,
        }
    }
    at
}

// Whether the one object is the other, or has it among its prototypes.
fn is_along(heap: &Heap, from: ObjId, to: ObjId) -> bool
    requires { from.number < length heap.now.objects }
    ensures { result ≡ list_any (λ n. n == to.number)
        (chain prototype_number heap.now.objects (Some from.number)) }
{
    chains_lead_on();
    let _objects = heap.object_count();
    let mut at = from;
    loop {
        if at.number == to.number {
            return true;
        }
        match heap.prototype(at) {
            Some(prototype) => at = prototype,
            None => return false,
        }
    }
}

// The prototype of an object, or of a native function without one.
fn first_prototype(heap: &Heap, value: &Value) -> Option<ObjId>
    requires { IsThere heap.now value.now }
    ensures chain { operations.prototypes heap.now value.now
        ≡ chain prototype_number heap.now.objects (option_map id_number result) }
    ensures there { IsBelow (length heap.now.objects) (option_map id_number result) }
{
    match value {
        Value::Ref(object) | Value::Wrap(_, Callee::Ref(object)) => heap.prototype(*object),
        Value::Native(_) | Value::Wrap(_, Callee::Native(_)) => {
            Some(heap.root(Root::FunctionPrototype))
        }
        _ => None,
    }
}

// Whether an object is among the prototypes of a value (15.3.5.3, step 4).
fn descends(heap: &Heap, value: &Value, prototype: &Value) -> bool
    requires { IsThere heap.now value.now }
    ensures { result ≡ operations.descends heap.now value.now (image prototype.now) }
{
    match (first_prototype(heap, value), as_object(prototype)) {
        (Some(first), Some(object)) => is_along(heap, first, object),
        _ => false,
    }
}

// Whether a value descends from a function's `prototype`, which throws where that is no object.
fn instance_by<H: Host>(
    alloc: Global,
    host: &H,
    heap: &mut Heap,
    value: &Value,
    prototype: &Option<Value>,
) -> Result<Answered, NoMemory>
    requires { IsThere heap.old value.now }
    ensures value { IfOk result (λ a. Gives
        (operations.instance_by (hosted H.rows) heap.old host.now value.now prototype.now)
        a heap.new host.now) }
    ensures there { (vs : List Held) → AreThere heap.old vs
        → IfOk result (λ a. AreThere heap.new (answered_names a vs)) }
    ensures more { OnOk result (IsLater heap.old heap.new) }
{
    if let Some(prototype) = prototype {
        if !prototype.is_primitive() {
            return Ok(Answered::Returns(Value::Bool(descends(heap, value, prototype))));
        }
    }
    thrown(alloc, host, heap, ErrorName::TypeError)
}

// The `prototype` of what a function calls in the end.
fn prototype_property<H: Host>(
    alloc: Global,
    host: &H,
    heap: &Heap,
    function: &Value,
) -> Result<Option<Value>, NoMemory>
    requires { AreThere heap.now (function.now ∷ H.names.host host.now) }
    ensures { IfOk result (λ v. v ≡ properties.property (hosted H.rows) heap.now host.now
        (operations.target_to (length heap.now.objects) heap.now function.now)
        (codes "prototype")) }
{
    let key = JText::from_units(alloc, &PROTOTYPE)?;
    property(alloc, host, heap, target(heap, function), &key)
}

// `instanceof` (11.8.6, 15.3.5.3).
pub(crate) fn instance_of<H: Host>(
    alloc: Global,
    host: &H,
    heap: &mut Heap,
    value: &Value,
    function: &Value,
) -> Result<Answered, NoMemory>
    requires { AreThere heap.old (value.now ∷ function.now ∷ H.names.host host.now) }
    ensures value { IfOk result (λ a. Gives
        (operations.instance_of (hosted H.rows) heap.old host.now value.now function.now)
        a heap.new host.now) }
    ensures there { (vs : List Held) → AreThere heap.old vs
        → IfOk result (λ a. AreThere heap.new (answered_names a vs)) }
    ensures more { OnOk result (IsLater heap.old heap.new) }
{
    if !is_callable(heap, function) {
        return thrown(alloc, host, heap, ErrorName::TypeError);
    }
    if value.is_primitive() {
        return Ok(Answered::Returns(Value::Bool(false)));
    }
    let prototype = prototype_property(alloc, host, heap, function)?;
    instance_by(alloc, host, heap, value, &prototype)
}
