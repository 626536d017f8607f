// Objects, and the chain of prototypes.
ghost use Rattle.std.specs.Prelude.{◌≡◌, ◌<◌, ◌++◌, ◌∷◌, [], Some, IfOk, OnOk, OnErr, length, codes, map};
ghost use Rattle.std.specs.Option.{option_copied};
ghost use Rattle.js_heap.specs.Chains.{LeadsBack};
ghost use Rattle.js_table.specs.Listing.{listed_names};
ghost use Rattle.js_heap.specs.Keys.{properties_along};
ghost use Rattle.js_heap.specs.Objects as spec;
ghost use Rattle.js_heap.specs.Roots.{builtin, to_prototype};

use crate::Class;
use crate::object::Object;
use indexmap::IndexSet;
use js_table::Table;
use js_value::{Num, ObjId, Value};
use mug_text::{JText, Listed, NoMemory};
use std::alloc::Global;

// What a new object of this class has at first.
pub(crate) fn first_properties(
    alloc: Global,
    length: &JText,
    class: &Class,
) -> Result<Table, NoMemory>
    requires { length.now ≡ codes "length" }
    ensures { IfOk result (λ t. t ≡ spec.first_properties class.now) }
{
    let mut properties = Table::new(alloc);
    if matches!(class, Class::Array) {
        properties.put(length, Value::Num(Num::Whole(0i32.into())), false)?;
    }
    Ok(properties)
}

// Puts an object behind the others.
pub(crate) fn push_object(objects: &mut Vec<Object>, object: Object) -> Result<(), NoMemory>
    ensures ok { OnOk result (objects.new.items ≡ objects.old.items ++ object ∷ []) }
    ensures err { OnErr result (objects.new.items ≡ objects.old.items) }
{
    objects.push(object)?;
    Ok(())
}

// The value of the name in the object, or else in its prototype, and so on.
pub(crate) fn value_along<'a>(objects: &'a [Object], obj: ObjId, name: &[u16]) -> Option<&'a Value>
    requires back { LeadsBack spec.prototype_number objects.now }
    requires there { obj.number < length objects.now }
    ensures { option_copied result ≡ spec.value_along objects.now (Some obj.number) name.now }
{
    let mut at = obj;
    loop {
        let object = &objects[at.number as usize];
        if let Some(value) = object.properties.value(name) {
            return Some(value);
        }
        match object.prototype {
            Some(prototype) => at = prototype,
            None => return None,
        }
    }
}

// The names that for-in goes through.
pub(crate) fn keys_along(
    alloc: Global,
    objects: &[Object],
    obj: ObjId,
) -> Result<Listed<JText>, NoMemory>
    requires back { LeadsBack spec.prototype_number objects.now }
    requires there { obj.number < length objects.now }
    ensures { IfOk result (λ names. names ≡
        listed_names (properties_along objects.now (Some obj.number))) }
{
    let mut seen = IndexSet::new(alloc);
    let mut names = Listed::new(alloc);
    let mut at = obj;
    loop {
        let object = &objects[at.number as usize];
        object.properties.list_names(&mut seen, &mut names)?;
        match object.prototype {
            Some(prototype) => at = prototype,
            None => return Ok(names),
        }
    }
}

// `length`
pub(crate) const LENGTH: [u16; 6] = [0x6C, 0x65, 0x6E, 0x67, 0x74, 0x68];

// Whether the name is that of an array's `length`.
fn is_length(class: &Class, name: &[u16]) -> bool
    ensures { result ≡ spec.is_length class.now name.now }
{
    matches!(class, Class::Array) && name == LENGTH.as_slice()
}

// Removes an own property, where the object gives it up.
pub(crate) fn remove_in(object: &mut Object, name: &[u16]) -> bool
    ensures found { result ≡ spec.gives_up object.old name.now }
    ensures without { object.new ≡ spec.object_without name.now object.old }
{
    if is_length(&object.class, name) {
        return false;
    }
    object.properties.remove(name)
}

// A built-in object that isn't called, behind the others.
fn push_builtin(objects: &mut Vec<Object>, prototype: Option<ObjId>) -> Result<(), NoMemory>
    ensures ok { OnOk result (objects.new.items ≡ objects.old.items ++ builtin prototype ∷ []) }
{
    let properties = Table::new(*objects.allocator());
    push_object(
        objects,
        Object {
            class: Class::Builtin(None),
            prototype,
            properties,
        },
    )
}

// The prototypes of the objects that a heap holds from the start.
const FIRST: [Option<u32>; 16] = [
    None,
    Some(0),
    Some(0),
    Some(0),
    Some(0),
    Some(0),
    Some(0),
    Some(0),
    Some(0),
    Some(8),
    Some(8),
    Some(8),
    Some(8),
    Some(0),
    Some(0),
    Some(0),
];

// The objects that a heap holds from the start.
pub(crate) fn first_objects(alloc: Global) -> Result<Vec<Object>, NoMemory>
    ensures { IfOk result (λ os. os.items ≡ map builtin (map to_prototype FIRST)) }
{
    let mut objects = Vec::new(alloc);
    for prototype in FIRST {
        push_builtin(&mut objects, prototype.map(|number| ObjId { number }))?;
    }
    Ok(objects)
}

// The text `length`.
pub(crate) fn length_name(alloc: Global) -> Result<JText, NoMemory>
    ensures { IfOk result (λ t. t ≡ codes "length") }
{
    JText::from_units(alloc, &LENGTH)
}
