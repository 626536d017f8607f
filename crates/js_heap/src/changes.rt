// Changes of one object among the others.
ghost use Rattle.std.specs.Prelude.{◌≡◌, ◌↔◌, ◌<◌, true, decimal, length, OnOk, OnErr};
ghost use Rattle.js_heap.specs.Objects as spec;
ghost use Rattle.js_heap.specs.Puts as puts;

use crate::PutFault;
use crate::arrays::{cut_in, put_at, put_in};
use crate::object::Object;
use crate::objects::remove_in;
use js_value::{ObjId, Value};
use mug_text::{JText, NoMemory};

// Gives the object's own property a value.
pub(crate) fn put_property(
    objects: &mut Vec<Object>,
    obj: ObjId,
    name: &JText,
    value: Value,
    listed: bool,
) -> Result<(), PutFault>
    requires { obj.number < length objects.old.items }
    ensures bad { result ≡ Err PutFault.BadLength ↔
        (puts.refuses_at objects.old.items obj.number name.now value ≡ true) }
    ensures ok { OnOk result (objects.new.items ≡
        spec.changed_at objects.old.items obj.number (puts.object_with name.now value listed)) }
    ensures err { OnErr result (objects.new.items ≡ objects.old.items) }
{
    put_in(&mut objects[obj.number as usize], name, value, listed)
}

// The same by the name that the number spells.
pub(crate) fn put_element(
    objects: &mut Vec<Object>,
    obj: ObjId,
    index: u32,
    value: Value,
    listed: bool,
) -> Result<(), NoMemory>
    requires { obj.number < length objects.old.items }
    ensures ok { OnOk result (objects.new.items ≡ spec.changed_at objects.old.items obj.number
        (puts.object_with (decimal index) value listed)) }
    ensures err { OnErr result (objects.new.items ≡ objects.old.items) }
{
    put_at(&mut objects[obj.number as usize], index, value, listed)
}

// Gives an array this `length`.
pub(crate) fn cut_array(objects: &mut Vec<Object>, obj: ObjId, new_length: u32)
    requires { obj.number < length objects.old.items }
    ensures { objects.new.items ≡
        spec.changed_at objects.old.items obj.number (puts.object_cut new_length) }
{
    cut_in(&mut objects[obj.number as usize], new_length);
}

// Removes an own property, where the object gives it up.
pub(crate) fn remove_property(objects: &mut Vec<Object>, obj: ObjId, name: &[u16]) -> bool
    requires { obj.number < length objects.old.items }
    ensures found { result ≡ spec.gives_up_at objects.old.items obj.number name.now }
    ensures without { objects.new.items ≡
        spec.changed_at objects.old.items obj.number (spec.object_without name.now) }
{
    remove_in(&mut objects[obj.number as usize], name)
}
