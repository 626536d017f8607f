// How a property is deleted.
ghost use Rattle.std.specs.Prelude.{◌≡◌, ◌<◌, ◌∷◌, IfOk, OnOk, length};
ghost use Rattle.js_value.specs.declared.value.Value.TheVariants.{Ref};
ghost use Rattle.js_host.specs.There.{AreThere};
ghost use Rattle.js_reference.specs.Answers.{Gives, answered_names};
ghost use Rattle.js_reference.specs.Deletes as deletes;
ghost use Rattle.js_reference.specs.Hosted.{hosted};
ghost use Rattle.js_reference.specs.Later.{IsLater};

use crate::reads::{LENGTH, text_own};
use crate::{Answered, ErrorName, thrown};
use js_heap::{Class, Heap};
use js_host::Host;
use js_value::{Callee, ObjId, Value};
use mug_text::{JText, NoMemory};
use std::alloc::Global;

// Whether the property is an array's `length`.
fn stays(heap: &Heap, object: ObjId, key: &JText) -> bool
    requires { object.number < length heap.now.objects }
    ensures { result ≡ deletes.stays_at heap.now object key.now }
{
    matches!(heap.class(object), Class::Array) && key.as_slice() == LENGTH.as_slice()
}

// Deletes a property of an object; one of the host's stays as it is, and that is no failure.
fn delete_object<H: Host>(
    host: &H,
    heap: &mut Heap,
    object: ObjId,
    key: &JText,
) -> Result<Answered, NoMemory>
    requires { AreThere heap.old (Ref object ∷ H.names.host host.now) }
    ensures value { IfOk result (λ a. Gives
        (deletes.delete_object (hosted H.rows) heap.old host.now object key.now)
        a heap.new host.now) }
    ensures there { IfOk result (λ a.
        AreThere heap.new (answered_names a (H.names.host host.now))) }
    ensures more { OnOk result (IsLater heap.old heap.new) }
{
    if host.get_own(heap, object, key)?.is_some() {
        return Ok(Answered::Returns(Value::Bool(true)));
    }
    let stays = stays(heap, object, key);
    heap.remove(object, key);
    Ok(Answered::Returns(Value::Bool(!stays)))
}

/// Deletes a property of a value, and says whether it is gone. Undefined and null have none, and
/// throw.
pub fn delete<H: Host>(
    alloc: Global,
    host: &H,
    heap: &mut Heap,
    base: &Value,
    key: &JText,
) -> Result<Answered, NoMemory>
    requires { AreThere heap.old (base.now ∷ H.names.host host.now) }
    ensures value { IfOk result (λ a. Gives
        (deletes.delete (hosted H.rows) heap.old host.now base.now key.now) a heap.new host.now) }
    ensures there { IfOk result (λ a.
        AreThere heap.new (answered_names a (H.names.host host.now))) }
    ensures more { OnOk result (IsLater heap.old heap.new) }
{
    match base {
        Value::Undefined | Value::Null => thrown(alloc, host, heap, ErrorName::TypeError),
        Value::Ref(object) | Value::Wrap(_, Callee::Ref(object)) => {
            delete_object(host, heap, *object, key)
        }
        Value::Text(text) => {
            let own = text_own(alloc, text, key)?;
            Ok(Answered::Returns(Value::Bool(own.is_none())))
        }
        _ => Ok(Answered::Returns(Value::Bool(true))),
    }
}
