// New objects.
ghost use Rattle.std.specs.Prelude.{◌≡◌, ◌<◌, IfOk, OnOk, Some, length};
ghost use Rattle.js_heap.specs.Closed.{ClassIsThere};
ghost use Rattle.js_heap.specs.Objects.{with_object};
ghost use Rattle.js_reference.specs.Errors.{next_object};

use js_heap::{Class, Heap};
use js_value::ObjId;
use mug_text::NoMemory;

/// A new object; there is no memory for one that doesn't fit.
pub(crate) fn new_object(heap: &mut Heap, class: Class, prototype: ObjId) -> Result<ObjId, NoMemory>
    requires prototype { prototype.number < length heap.old.objects }
    requires class { ClassIsThere heap.old class }
    ensures number { IfOk result (λ o. o ≡ next_object heap.old) }
    ensures made { OnOk result (heap.new ≡ with_object heap.old class (Some prototype)) }
{
    match heap.new_object(class, Some(prototype)) {
        Ok(object) => Ok(object),
        Err(_) => Err(NoMemory),
    }
}
