// Function objects.
ghost use Rattle.std.specs.Prelude.{◌≡◌, ◌<◌, true, false, Some, IfOk, OnOk, length};
ghost use Rattle.std.specs.Option.{option_map};
ghost use Rattle.js_value.specs.declared.value.Value.TheVariants.{Ref};
ghost use Rattle.js_heap.specs.Chains.{IsBelow};
ghost use Rattle.js_heap.specs.Closed.{ClassIsThere};
ghost use Rattle.js_heap.specs.Objects as objects;
ghost use Rattle.js_heap.specs.Puts.{put};
ghost use Rattle.js_heap.specs.Scopes.{scope_number};
ghost use Rattle.js_heap.specs.declared.fault.TheConstants.{COUNT_LIMIT};
ghost use Rattle.js_reference.specs.Errors.{next_object, root_object};
ghost use Rattle.js_reference.specs.Functions as functions;
ghost use Rattle.js_reference.specs.Room.{objects_fit};

use js_heap::{Class, Code, Heap, HeapFault, PutFault, Root};
use js_value::{ObjId, Value};
use mug_text::{JText, NoMemory};
use std::alloc::Global;
use std::marker::Model;

// `prototype` and `constructor`
const PROTOTYPE: [u16; 9] = [0x70, 0x72, 0x6F, 0x74, 0x6F, 0x74, 0x79, 0x70, 0x65];

const CONSTRUCTOR: [u16; 11] = [
    0x63, 0x6F, 0x6E, 0x73, 0x74, 0x72, 0x75, 0x63, 0x74, 0x6F, 0x72,
];

/// The names of the properties that a new function and its prototype have, which all share.
#[derive(Drop)]
pub struct FunctionNames {
    prototype: JText,
    constructor: JText,
}

impl Model for FunctionNames {
    ghost use Rattle.std.specs.Prelude.{◌≡◌, codes};

    ghost Value = { Unit {0} };

    ghost view = { λ _. tt };

    ghost invariant = { λ n. (n.prototype ≡ codes "prototype")
        × (n.constructor ≡ codes "constructor") };
}

impl FunctionNames {
    /// Two texts.
    pub fn new(alloc: Global) -> Result<FunctionNames, NoMemory> {
        Ok(FunctionNames {
            prototype: JText::from_units(alloc, &PROTOTYPE)?,
            constructor: JText::from_units(alloc, &CONSTRUCTOR)?,
        })
    }
}

// A new object that fits.
fn new_object(heap: &mut Heap, class: Class, prototype: Root) -> Result<ObjId, NoMemory>
    requires fits { length heap.old.objects < COUNT_LIMIT }
    requires class { ClassIsThere heap.old class }
    ensures number { IfOk result (λ o. o ≡ next_object heap.old) }
    ensures made { OnOk result (heap.new
        ≡ objects.with_object heap.old class (Some (root_object prototype))) }
{
    let prototype = heap.root(prototype);
    match heap.new_object(class, Some(prototype)) {
        Ok(object) => Ok(object),
        Err(HeapFault::Full) => unreachable!(),
        Err(HeapFault::NoMemory) => Err(NoMemory),
    }
}

// Gives an object that is no array an unlisted property, which refers to another object.
fn link(heap: &mut Heap, from: ObjId, key: &JText, to: ObjId) -> Result<(), NoMemory>
    requires from { from.number < length heap.old.objects }
    requires to { to.number < length heap.old.objects }
    requires plain { functions.is_array_at heap.old from ≡ false }
    ensures put { OnOk result (heap.new ≡ put heap.old from key.now (Ref to) false) }
{
    match heap.put(from, key, Value::Ref(to), false) {
        Ok(()) => Ok(()),
        Err(PutFault::BadLength) => unreachable!(),
        Err(PutFault::NoMemory) => Err(NoMemory),
    }
}

/// A new function: its object, and that which is its `prototype`.
pub fn make_function(heap: &mut Heap, names: &FunctionNames, code: Code) -> Result<ObjId, NoMemory>
    requires fits { objects_fit heap.old functions.objects_of_function ≡ true }
    requires scope { IsBelow (length heap.old.scopes) (option_map scope_number code.scope) }
    ensures made { OnOk result (heap.new ≡ functions.with_function heap.old code) }
    ensures number { IfOk result (λ o. o ≡ next_object heap.old) }
{
    let function = new_object(heap, Class::Function(code), Root::FunctionPrototype)?;
    let prototype = new_object(heap, Class::Object, Root::ObjectPrototype)?;
    link(heap, function, &names.prototype, prototype)?;
    link(heap, prototype, &names.constructor, function)?;
    Ok(function)
}
