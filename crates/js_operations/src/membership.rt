// Whether a value has a property.
ghost use Rattle.std.specs.Prelude.{◌≡◌, ◌∷◌, List, IfOk, OnOk};
ghost use Rattle.js_value.specs.Image.{IsPrimitive};
ghost use Rattle.js_value.specs.declared.value.Value.{Value as Held};
ghost use Rattle.js_host.specs.There.{AreThere};
ghost use Rattle.js_reference.specs.Answers.{Gives, answered_names};
ghost use Rattle.js_reference.specs.Hosted.{hosted};
ghost use Rattle.js_reference.specs.Later.{IsLater};
ghost use Rattle.js_operations.specs.Operations as operations;

use js_heap::Heap;
use js_host::Host;
use js_ops::to_text;
use js_reference::{Answered, ErrorName, property, thrown};
use js_value::Value;
use mug_text::NoMemory;
use std::alloc::Global;

// `in` (ECMA-262 edition 5.1, 11.8.7).
pub(crate) fn in_object<H: Host>(
    alloc: Global,
    host: &H,
    heap: &mut Heap,
    key: &Value,
    value: &Value,
) -> Result<Answered, NoMemory>
    requires key { IsPrimitive key.now }
    requires there { AreThere heap.old (value.now ∷ H.names.host host.now) }
    ensures value { IfOk result (λ a. Gives
        (operations.in_object (hosted H.rows) heap.old host.now key.now value.now)
        a heap.new host.now) }
    ensures there { (vs : List Held) → AreThere heap.old vs
        → IfOk result (λ a. AreThere heap.new (answered_names a vs)) }
    ensures more { OnOk result (IsLater heap.old heap.new) }
{
    if value.is_primitive() {
        return thrown(alloc, host, heap, ErrorName::TypeError);
    }
    let key = to_text(alloc, key)?;
    let found = property(alloc, host, heap, value, &key)?;
    Ok(Answered::Returns(Value::Bool(found.is_some())))
}
