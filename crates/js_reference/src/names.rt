// Names: in the nearest scope that has one, or else on the window and its prototypes.
ghost use Rattle.std.specs.Prelude.{◌≡◌, ◌∷◌, [], Some, None, IfOk, OnOk, MatchBool, length};
ghost use Rattle.std.specs.Option.{option_map};
ghost use Rattle.js_heap.specs.Chains.{IsBelow};
ghost use Rattle.js_heap.specs.Closed.{IsThere};
ghost use Rattle.js_heap.specs.Scopes.{scope_number};
ghost use Rattle.js_host.specs.Names.{option_names};
ghost use Rattle.js_host.specs.There.{AreThere};
ghost use Rattle.js_reference.specs.Answers.{Gives, answered_names};
ghost use Rattle.js_reference.specs.Hosted.{hosted};
ghost use Rattle.js_reference.specs.Later.{IsLater};
ghost use Rattle.js_reference.specs.Names as names;

use crate::reads::object_property;
use crate::{Answered, ErrorName, thrown, write_object};
use js_heap::{Heap, Root, ScopeId};
use js_host::Host;
use js_value::Value;
use mug_text::{JText, NoMemory};
use std::alloc::Global;

// The value of the name in the nearest scope that has it.
fn scoped(heap: &Heap, scope: Option<ScopeId>, name: &JText) -> Result<Option<Value>, NoMemory>
    requires { IsBelow (length heap.now.scopes) (option_map scope_number scope) }
    ensures value { IfOk result (λ v. v ≡ names.scoped heap.now scope name.now) }
    ensures there { IfOk result (λ v. AreThere heap.now (option_names v [])) }
{
    let Some(scope) = scope else {
        return Ok(None);
    };
    match heap.look_up(scope, name) {
        Some(value) => Ok(Some(value.copy()?)),
        None => Ok(None),
    }
}

/// What the name means, where it is bound.
pub fn name_value<H: Host>(
    host: &H,
    heap: &Heap,
    scope: Option<ScopeId>,
    name: &JText,
) -> Result<Option<Value>, NoMemory>
    requires there { AreThere heap.now (H.names.host host.now) }
    requires scope { IsBelow (length heap.now.scopes) (option_map scope_number scope) }
    ensures value { IfOk result (λ v. v ≡
        names.name_value (hosted H.rows) heap.now host.now scope name.now) }
    ensures there { IfOk result (λ v. AreThere heap.now (option_names v (H.names.host host.now))) }
{
    if let Some(value) = scoped(heap, scope, name)? {
        return Ok(Some(value));
    }
    let window = heap.root(Root::Window);
    object_property(host, heap, window, name)
}

/// The value of a name; one that is bound nowhere throws.
pub fn read_name<H: Host>(
    alloc: Global,
    host: &H,
    heap: &mut Heap,
    scope: Option<ScopeId>,
    name: &JText,
) -> Result<Answered, NoMemory>
    requires there { AreThere heap.old (H.names.host host.now) }
    requires scope { IsBelow (length heap.old.scopes) (option_map scope_number scope) }
    ensures value { IfOk result (λ a. Gives
        (names.read_name (hosted H.rows) heap.old host.now scope name.now) a heap.new host.now) }
    ensures there { IfOk result (λ a.
        AreThere heap.new (answered_names a (H.names.host host.now))) }
    ensures more { OnOk result (IsLater heap.old heap.new) }
{
    match name_value(host, heap, scope, name)? {
        Some(value) => Ok(Answered::Returns(value)),
        None => thrown(alloc, host, heap, ErrorName::ReferenceError),
    }
}

// Gives the value to the name in the nearest scope that has it; false exactly where none has it.
fn assign(
    heap: &mut Heap,
    scope: Option<ScopeId>,
    name: &JText,
    value: &Value,
) -> Result<bool, NoMemory>
    requires scope { IsBelow (length heap.old.scopes) (option_map scope_number scope) }
    requires value { IsThere heap.old value.now }
    ensures { IfOk result (λ done. MatchBool done
        (names.assigned heap.old scope name.now value.now ≡ Some heap.new)
        ((names.assigned heap.old scope name.now value.now ≡ None) × (heap.new ≡ heap.old))) }
{
    match scope {
        Some(scope) => Ok(heap.assign(scope, name, value.copy()?)),
        None => Ok(false),
    }
}

/// Writes to a name: in the nearest scope that has it, or else to the window's property.
pub fn write_name<H: Host>(
    alloc: Global,
    host: &mut H,
    heap: &mut Heap,
    scope: Option<ScopeId>,
    name: &JText,
    value: Value,
) -> Result<Answered, NoMemory>
    requires there { AreThere heap.old (value ∷ H.names.host host.old) }
    requires scope { IsBelow (length heap.old.scopes) (option_map scope_number scope) }
    ensures value { IfOk result (λ a. Gives
        (names.write_name (hosted H.rows) heap.old host.old scope name.now value)
        a heap.new host.new) }
    ensures there { IfOk result (λ a.
        AreThere heap.new (answered_names a (H.names.host host.new))) }
    ensures more { OnOk result (IsLater heap.old heap.new) }
{
    if assign(heap, scope, name, &value)? {
        return Ok(Answered::Returns(value));
    }
    let window = heap.root(Root::Window);
    write_object(alloc, host, heap, window, name, value)
}
