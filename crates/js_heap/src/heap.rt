// The heap.
ghost use Rattle.std.specs.Prelude.{◌≡◌, ◌↔◌, ◌<◌, ◌≤◌, true, Some, None, decimal, length, slice_get, MatchBool, IfOk, IfSome, IsTrue, OnOk, OnErr};
ghost use Rattle.std.specs.Option.{option_copied, option_map};
ghost use Rattle.js_heap.specs.Chains.{IsBelow};
ghost use Rattle.js_heap.specs.Closed.{ClassIsThere, IsClosed, IsThere};
ghost use Rattle.js_heap.specs.Keys as listing;
ghost use Rattle.js_heap.specs.Objects as objects;
ghost use Rattle.js_heap.specs.Puts as puts;
ghost use Rattle.js_heap.specs.Roots.{first_world, root_number};
ghost use Rattle.js_heap.specs.Scopes as scopes;

use crate::changes::{cut_array, put_element, put_property, remove_property};
use crate::object::Object;
use crate::objects::{
    first_objects, first_properties, keys_along, length_name, push_object, value_along,
};
use crate::scope::{Names, Scope};
use crate::scopes::{self as along, holder, name_scope, push_scope, rename};
use crate::{COUNT_LIMIT, Class, HeapFault, PutFault, Root, ScopeId};
use js_table::Spelling;
use js_value::{Callee, ObjId, Value};
use mug_text::{JText, Listed, NoMemory};
use std::alloc::Global;
use std::marker::Model;

/// Objects and scopes by number. Each prototype, and each scope around a scope, has a lower number
/// than what has it; what values and classes name is there; each array has a `length`.
#[derive(Drop)]
pub struct Heap {
    objects: Vec<Object>,
    scopes: Vec<Scope>,
    // `length`
    length_name: JText,
}

impl Model for Heap {
    ghost use Rattle.std.specs.Prelude.{◌≡◌, codes};
    ghost use Rattle.js_heap.specs.World.{World};
    ghost use Rattle.js_heap.specs.inner.Kept.{IsKept, world_of};

    ghost Value = { World };

    ghost view = { λ h. world_of h.objects.items h.scopes.items };

    ghost invariant = { λ h.
        IsKept h.objects.items h.scopes.items × (h.length_name ≡ codes "length") };
}

impl Heap {
    /// The window and the prototypes, as objects without properties, and no scope.
    pub fn new(alloc: Global) -> Result<Heap, NoMemory>
        ensures { IfOk result (λ h. h ≡ first_world) }
    {
        let length_name = length_name(alloc)?;
        Ok(Heap {
            objects: first_objects(alloc)?,
            scopes: Vec::new(alloc),
            length_name,
        })
    }

    /// How many objects there are. What the heap keeps names only what is there.
    pub fn object_count(&self) -> usize
        ensures count { result ≡ length self.now.objects }
        ensures closed { IsClosed self.now }
    {
        self.objects.len()
    }

    /// How many scopes there are.
    pub fn scope_count(&self) -> usize
        ensures { result ≡ length self.now.scopes }
    {
        self.scopes.len()
    }

    /// Whether what the value names is there.
    pub fn is_there(&self, value: &Value) -> bool
        ensures { IsTrue result ↔ IsThere self.now value.now }
    {
        match value {
            Value::Ref(obj) | Value::Wrap(_, Callee::Ref(obj)) => {
                (obj.number as usize) < self.objects.len()
            }
            _ => true,
        }
    }

    /// One of the objects that the heap holds from the start.
    pub fn root(&self, root: Root) -> ObjId
        ensures number { result.number ≡ root_number root }
        ensures there { result.number < length self.now.objects }
    {
        let _objects = self.objects.len();
        root.id()
    }

    /// A new object, without properties but an array's `length`. Its number is that of the objects
    /// before it.
    pub fn new_object(&mut self, class: Class, prototype: Option<ObjId>) -> Result<ObjId, HeapFault>
        requires prototype { IsBelow (length self.old.objects)
            (option_map objects.id_number prototype) }
        requires class { ClassIsThere self.old class }
        ensures number { IfOk result (λ o. o.number ≡ length self.old.objects) }
        ensures made { OnOk result (self.new ≡ objects.with_object self.old class prototype) }
        ensures full { result ≡ Err HeapFault.Full ↔ (COUNT_LIMIT ≤ length self.old.objects) }
        ensures unchanged { OnErr result (self.new ≡ self.old) }
    {
        if self.objects.len() >= COUNT_LIMIT {
            return Err(HeapFault::Full);
        }
        let number = self.objects.len() as u32;
        let properties = first_properties(*self.objects.allocator(), &self.length_name, &class)?;
        push_object(
            &mut self.objects,
            Object {
                class,
                prototype,
                properties,
            },
        )?;
        Ok(ObjId { number })
    }

    /// A new scope without names. Its number is that of the scopes before it.
    pub fn new_scope(&mut self, parent: Option<ScopeId>) -> Result<ScopeId, HeapFault>
        requires { IsBelow (length self.old.scopes) (option_map scopes.scope_number parent) }
        ensures number { IfOk result (λ s. s.number ≡ length self.old.scopes) }
        ensures made { OnOk result (self.new ≡ scopes.with_scope self.old parent) }
        ensures full { result ≡ Err HeapFault.Full ↔ (COUNT_LIMIT ≤ length self.old.scopes) }
        ensures unchanged { OnErr result (self.new ≡ self.old) }
    {
        if self.scopes.len() >= COUNT_LIMIT {
            return Err(HeapFault::Full);
        }
        let number = self.scopes.len() as u32;
        let names = Names::new(*self.scopes.allocator());
        push_scope(&mut self.scopes, Scope { parent, names })?;
        Ok(ScopeId { number })
    }

    /// The object's class.
    pub fn class(&self, obj: ObjId) -> &Class
        requires { obj.number < length self.now.objects }
        ensures class { option_map objects.class_of (slice_get self.now.objects obj.number) ≡
            Some result.now }
        ensures there { ClassIsThere self.now result.now }
    {
        &self.objects[obj.number as usize].class
    }

    /// The object's prototype, which has a lower number.
    pub fn prototype(&self, obj: ObjId) -> Option<ObjId>
        requires { obj.number < length self.now.objects }
        ensures prototype { option_map objects.prototype_of
            (slice_get self.now.objects obj.number) ≡ Some result }
        ensures before { IsBelow obj.number (option_map objects.id_number result) }
    {
        self.objects[obj.number as usize].prototype
    }

    /// The value of the object's own property.
    pub fn get_own(&self, obj: ObjId, key: &JText) -> Option<&Value>
        requires { obj.number < length self.now.objects }
        ensures value { option_copied result ≡ objects.get_own self.now obj key.now }
        ensures there { IfSome result (λ v. IsThere self.now v.now) }
    {
        self.objects[obj.number as usize]
            .properties
            .value(key.as_slice())
    }

    /// The value of the property of the object, or else of its prototype, and so on.
    pub fn get(&self, obj: ObjId, key: &JText) -> Option<&Value>
        requires { obj.number < length self.now.objects }
        ensures value { option_copied result ≡ objects.get self.now obj key.now }
        ensures there { IfSome result (λ v. IsThere self.now v.now) }
    {
        value_along(&self.objects, obj, key.as_slice())
    }

    /// What `get` gives for the number's decimal spelling, without a text.
    pub fn get_at(&self, obj: ObjId, index: u32) -> Option<&Value>
        requires { obj.number < length self.now.objects }
        ensures value { option_copied result ≡ objects.get self.now obj (decimal index) }
        ensures there { IfSome result (λ v. IsThere self.now v.now) }
    {
        value_along(&self.objects, obj, Spelling::of(index).as_slice())
    }

    /// The names that for-in goes through: those of the object in the order in which they were
    /// added, then those of its prototype, and so on, without what isn't listed; the first property
    /// of a name hides the others.
    pub fn keys(&self, obj: ObjId) -> Result<Listed<JText>, NoMemory>
        requires { obj.number < length self.now.objects }
        ensures { IfOk result (λ names. names ≡ listing.keys self.now obj) }
    {
        keys_along(*self.objects.allocator(), &self.objects, obj)
    }

    /// Gives the object's own property this value, in its place and as listed as before, or as the
    /// last one. An array's index at or above its `length` raises that, and a lower `length` takes
    /// the elements from it on away.
    pub fn put(
        &mut self,
        obj: ObjId,
        key: &JText,
        value: Value,
        listed: bool,
    ) -> Result<(), PutFault>
        requires object { obj.number < length self.old.objects }
        requires value { IsThere self.old value }
        ensures bad { result ≡ Err PutFault.BadLength ↔
            (puts.refuses_at self.old.objects obj.number key.now value ≡ true) }
        ensures ok { OnOk result (self.new ≡ puts.put self.old obj key.now value listed) }
        ensures err { OnErr result (self.new ≡ self.old) }
    {
        put_property(&mut self.objects, obj, key, value, listed)
    }

    /// What `put` does to the number's decimal spelling, of which a text is made only where the
    /// object hasn't the property.
    pub fn put_at(
        &mut self,
        obj: ObjId,
        index: u32,
        value: Value,
        listed: bool,
    ) -> Result<(), NoMemory>
        requires object { obj.number < length self.old.objects }
        requires value { IsThere self.old value }
        ensures ok { OnOk result (self.new ≡ puts.put self.old obj (decimal index) value listed) }
        ensures err { OnErr result (self.new ≡ self.old) }
    {
        put_element(&mut self.objects, obj, index, value, listed)
    }

    /// Gives an array this `length`; a lower one takes the elements from it on away.
    pub fn set_length(&mut self, obj: ObjId, new_length: u32)
        requires there { obj.number < length self.old.objects }
        requires array { option_map objects.class_of (slice_get self.old.objects obj.number) ≡
            Some Class.Array }
        ensures { self.new ≡ puts.set_length self.old obj new_length }
    {
        cut_array(&mut self.objects, obj, new_length);
    }

    /// Removes the object's own property; false exactly where it has no such property, or where
    /// that is an array's `length`, which stays.
    pub fn remove(&mut self, obj: ObjId, key: &JText) -> bool
        requires { obj.number < length self.old.objects }
        ensures found { result ≡ objects.gives_up_at self.old.objects obj.number key.now }
        ensures without { self.new ≡ objects.remove self.old obj key.now }
    {
        remove_property(&mut self.objects, obj, key.as_slice())
    }

    /// Gives a value to a name of the scope, in its place or behind the others.
    pub fn declare(&mut self, scope: ScopeId, name: &JText, value: Value) -> Result<(), NoMemory>
        requires scope { scope.number < length self.old.scopes }
        requires value { IsThere self.old value }
        ensures ok { OnOk result (self.new ≡ scopes.declare self.old scope name.now value) }
        ensures err { OnErr result (self.new ≡ self.old) }
    {
        name_scope(&mut self.scopes, scope, name, value)
    }

    /// The value of the name in the nearest scope that has it, from this scope outwards.
    pub fn look_up(&self, scope: ScopeId, name: &JText) -> Option<&Value>
        requires { scope.number < length self.now.scopes }
        ensures value { option_copied result ≡ scopes.look_up self.now scope name.now }
        ensures there { IfSome result (λ v. IsThere self.now v.now) }
    {
        along::value_along(&self.scopes, scope, name.as_slice())
    }

    /// Gives another value to the name in the nearest scope that has it; false exactly where no
    /// scope has it.
    pub fn assign(&mut self, scope: ScopeId, name: &JText, value: Value) -> bool
        requires scope { scope.number < length self.old.scopes }
        requires value { IsThere self.old value }
        ensures { MatchBool result (scopes.assign self.old scope name.now value ≡ Some self.new)
            ((scopes.assign self.old scope name.now value ≡ None) × (self.new ≡ self.old)) }
    {
        let Some(holder) = holder(&self.scopes, scope, name.as_slice()) else {
            return false;
        };
        rename(&mut self.scopes, holder, name, value);
        true
    }
}
