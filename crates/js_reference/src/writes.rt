// How a property is written.
ghost use Rattle.std.specs.Prelude.{◌≡◌, ◌≤◌, ◌∷◌, ℕ, List, IfOk, OnOk, length};
ghost use Rattle.js_value.specs.declared.value.ObjId.{ObjId};
ghost use Rattle.js_value.specs.declared.value.Value.{Value as Held};
ghost use Rattle.js_value.specs.declared.value.Value.TheVariants.{Ref};
ghost use Rattle.js_host.specs.Asking.{PutsNothing};
ghost use Rattle.js_host.specs.Names.{put_names};
ghost use Rattle.js_host.specs.There.{AreThere};
ghost use Rattle.js_reference.specs.Answers.{Gives, answered_names};
ghost use Rattle.js_reference.specs.Hosted.{hosted};
ghost use Rattle.js_reference.specs.Later.{IsLater};
ghost use Rattle.js_reference.specs.Puts as puts;

use crate::{Answered, ErrorName, thrown};
use js_heap::{Heap, PutFault, Root};
use js_host::{Host, HostPut, tests_last, there_is_among_the_objects};
use js_value::{Callee, ObjId, Value};
use mug_text::{JText, NoMemory};
use std::alloc::Global;

// `undefined` and `NaN`
const UNDEFINED: [u16; 9] = [0x75, 0x6E, 0x64, 0x65, 0x66, 0x69, 0x6E, 0x65, 0x64];

const NAN: [u16; 3] = [0x4E, 0x61, 0x4E];

// Whether the property is the window's `undefined` or `NaN`.
fn is_fixed(heap: &Heap, object: ObjId, key: &JText) -> bool
    ensures { result ≡ puts.is_fixed object key.now }
{
    let window = heap.root(Root::Window);
    object.number == window.number
        && (key.as_slice() == UNDEFINED.as_slice() || key.as_slice() == NAN.as_slice())
}

// After a host's write the objects are there that were, and what it names is; a write to what is
// none of its properties does nothing.
fn host_writes_keep<H: Host>(heap: &Heap)
    ensures there { (h : H) (o : ObjId) (x : List ℕ) (v : Held)
        → AreThere heap.now (Ref o ∷ v ∷ H.names.host h)
        → let r = H.rows.put_own heap.now h o x v in
        AreThere r.1 (put_names r.0 (H.names.host r.2)) }
    ensures more { (h : H) (o : ObjId) (x : List ℕ) (v : Held)
        → length heap.now.objects ≤ length (H.rows.put_own heap.now h o x v).1.objects }
    ensures later { (h : H) (o : ObjId) (x : List ℕ) (v : Held)
        → IsLater heap.now (H.rows.put_own heap.now h o x v).1 }
    ensures unheld { (h : H) (o : ObjId) (x : List ℕ) (v : Held)
        → let r = H.rows.put_own heap.now h o x v in PutsNothing heap.now h r.0 r.1 r.2 }
{
    tests_last();
    there_is_among_the_objects();
    let _objects = heap.object_count();
    let _last = heap.root(Root::RequestPrototype);
}

// A property of the heap's gets the value; an array's `length` takes whole numbers alone.
fn put_listed<H: Host>(
    alloc: Global,
    host: &H,
    heap: &mut Heap,
    object: ObjId,
    key: &JText,
    value: Value,
) -> Result<Answered, NoMemory>
    requires { AreThere heap.old (Ref object ∷ value ∷ H.names.host host.now) }
    ensures value { IfOk result (λ a. Gives
        (puts.put_listed heap.old host.now object key.now value) a heap.new host.now) }
    ensures there { IfOk result (λ a.
        AreThere heap.new (answered_names a (H.names.host host.now))) }
    ensures more { OnOk result (IsLater heap.old heap.new) }
{
    let written = value.copy()?;
    match heap.put(object, key, value, true) {
        Ok(()) => Ok(Answered::Returns(written)),
        Err(PutFault::BadLength) => thrown(alloc, host, heap, ErrorName::RangeError),
        Err(PutFault::NoMemory) => Err(NoMemory),
    }
}

/// Writes to a property of an object, and gives the value that is written. The window's `undefined`
/// and `NaN` stay.
pub fn write_object<H: Host>(
    alloc: Global,
    host: &mut H,
    heap: &mut Heap,
    object: ObjId,
    key: &JText,
    value: Value,
) -> Result<Answered, NoMemory>
    requires { AreThere heap.old (Ref object ∷ value ∷ H.names.host host.old) }
    ensures value { IfOk result (λ a. Gives
        (puts.write_object (hosted H.rows) heap.old host.old object key.now value)
        a heap.new host.new) }
    ensures there { IfOk result (λ a.
        AreThere heap.new (answered_names a (H.names.host host.new))) }
    ensures more { OnOk result (IsLater heap.old heap.new) }
{
    if is_fixed(heap, object, key) {
        return Ok(Answered::Returns(value));
    }
    host_writes_keep::<H>(heap);
    match host.put_own(heap, object, key, &value) {
        HostPut::NotHost => put_listed(alloc, host, heap, object, key, value),
        HostPut::Put => Ok(Answered::Returns(value)),
        HostPut::Throw(error) => Ok(Answered::Throws(error)),
        HostPut::NoMemory => Err(NoMemory),
    }
}

/// Writes to a property of a value: undefined and null have none, and throw; what is no object
/// forgets it.
pub fn write<H: Host>(
    alloc: Global,
    host: &mut H,
    heap: &mut Heap,
    base: &Value,
    key: &JText,
    value: Value,
) -> Result<Answered, NoMemory>
    requires { AreThere heap.old (base.now ∷ value ∷ H.names.host host.old) }
    ensures value { IfOk result (λ a. Gives
        (puts.write (hosted H.rows) heap.old host.old base.now key.now value)
        a heap.new host.new) }
    ensures there { IfOk result (λ a.
        AreThere heap.new (answered_names a (H.names.host host.new))) }
    ensures more { OnOk result (IsLater heap.old heap.new) }
{
    match base {
        Value::Undefined | Value::Null => thrown(alloc, host, heap, ErrorName::TypeError),
        Value::Ref(object) | Value::Wrap(_, Callee::Ref(object)) => {
            write_object(alloc, host, heap, *object, key, value)
        }
        _ => Ok(Answered::Returns(value)),
    }
}
