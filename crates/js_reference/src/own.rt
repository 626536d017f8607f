// Objects' own properties: the host's, and the heap's.
ghost use Rattle.std.specs.Prelude.{◌≡◌, ◌∷◌, List, ℕ, Option, [], IfOk};
ghost use Rattle.js_value.specs.declared.value.ObjId.{ObjId};
ghost use Rattle.js_value.specs.declared.value.Value.TheVariants.{Ref};
ghost use Rattle.js_host.specs.Names.{option_names};
ghost use Rattle.js_host.specs.There.{AreThere};
ghost use Rattle.js_reference.specs.Hosted.{hosted};
ghost use Rattle.js_reference.specs.Properties as properties;

use js_heap::{Heap, Root};
use js_host::{Host, tests_last, there_is_among_the_objects};
use js_value::{ObjId, Value};
use mug_text::{JText, NoMemory};

// What a host gives of an object names what is there.
fn hosted_are_there<H: Host>(heap: &Heap)
    ensures { (h : H) (o : ObjId) (x : List ℕ) → AreThere heap.now (Ref o ∷ H.names.host h)
        → AreThere heap.now (option_names (H.rows.get_own heap.now h o x) (H.names.host h)) }
{
    tests_last();
    there_is_among_the_objects();
    let _objects = heap.object_count();
    let _last = heap.root(Root::RequestPrototype);
}

// The value of the object's own property.
pub(crate) fn own_property<H: Host>(
    host: &H,
    heap: &Heap,
    object: ObjId,
    key: &JText,
) -> Result<Option<Value>, NoMemory>
    requires { AreThere heap.now (Ref object ∷ H.names.host host.now) }
    ensures value { IfOk result (λ v. v ≡
        properties.own_property (hosted H.rows) heap.now host.now object key.now) }
    ensures there { IfOk result (λ v. AreThere heap.now (option_names v (H.names.host host.now))) }
{
    hosted_are_there::<H>(heap);
    if let Some(value) = host.get_own(heap, object, key)? {
        return Ok(Some(value));
    }
    match heap.get_own(object, key) {
        Some(value) => Ok(Some(value.copy()?)),
        None => Ok(None),
    }
}
