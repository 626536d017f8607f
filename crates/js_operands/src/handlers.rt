// Writes of callables to handlers.
ghost use Rattle.std.specs.Prelude.{◌≡◌, ◌∷◌, IfOk, false, length};
ghost use Rattle.std.specs.Option.{option_map, option_map_or};
ghost use Rattle.js_heap.specs.Chains.{IsBelow};
ghost use Rattle.js_heap.specs.Objects.{id_number};
ghost use Rattle.js_heap.specs.Scopes.{scope_number};
ghost use Rattle.js_host.specs.There.{AreThere};
ghost use Rattle.js_reference.specs.Callables.{as_object};
ghost use Rattle.js_reference.specs.Hosted.{hosted};
ghost use Rattle.js_reference.specs.Names as names;
ghost use Rattle.js_tree.specs.Arena.{Arena};
ghost use Rattle.js_operands.specs.ExprMoves.{operand_names, row_as};
ghost use Rattle.js_operands.specs.Handlers as handlers;
ghost use Rattle.js_operands.specs.Steps.{operand_at};

use crate::ExprRow;
use crate::keys::key_of;
use crate::values::operand;
use js_heap::{Heap, Root, ScopeId};
use js_host::Host;
use js_reference::{as_object, is_callable};
use js_term::{Context, Operands};
use js_value::{ObjId, Value};
use mug_text::{JText, NoMemory};
use std::alloc::Global;

// The object whose property a write to the name sets.
fn name_owner(heap: &Heap, scope: Option<ScopeId>, name: &JText) -> Option<ObjId>
    requires { IsBelow (length heap.now.scopes) (option_map scope_number scope) }
    ensures owner { result ≡ names.name_owner heap.now scope name.now }
    ensures there { IsBelow (length heap.now.objects) (option_map id_number result) }
{
    let window = heap.root(Root::Window);
    let Some(scope) = scope else {
        return Some(window);
    };
    match heap.look_up(scope, name) {
        Some(_) => None,
        None => Some(window),
    }
}

// Whether a write of the value to the object's property sets a handler to a callable.
fn sets_handler_of<H: Host>(
    host: &H,
    heap: &Heap,
    object: Option<ObjId>,
    key: &JText,
    value: &Value,
) -> bool
    requires value { AreThere heap.now (value.now ∷ H.names.host host.now) }
    requires object { IsBelow (length heap.now.objects) (option_map id_number object) }
    ensures { result ≡ option_map_or (handlers.sets_handler_of (hosted H.rows) heap.now host.now
        key.now value.now) object false }
{
    let Some(object) = object else {
        return false;
    };
    host.is_handler(heap, object, key)
        && is_callable(heap, value)
        && !matches!(value, Value::Wrap(_, _))
}

// The same of a write of an operand to a property of the first.
fn sets_property<H: Host>(
    key: &JText,
    place: usize,
    operands: &Operands,
    heap: &Heap,
    host: &H,
) -> bool
    requires { AreThere heap.now (operand_names operands.now (H.names.host host.now)) }
    ensures { let vs = operands.now.done in result ≡ option_map_or (handlers.sets_handler_of
        (hosted H.rows) heap.now host.now key.now (operand_at vs place))
        (as_object (operand_at vs 0)) false }
{
    let undefined = Value::Undefined;
    let object = as_object(operand(operands, 0, &undefined));
    let value = operand(operands, place, &undefined);
    sets_handler_of(host, heap, object, key, value)
}

// The same of a write of the first operand to a name.
fn sets_name<H: Host>(
    name: &JText,
    scope: Option<ScopeId>,
    operands: &Operands,
    heap: &Heap,
    host: &H,
) -> bool
    requires there { AreThere heap.now (operand_names operands.now (H.names.host host.now)) }
    requires scope { IsBelow (length heap.now.scopes) (option_map scope_number scope) }
    ensures { result ≡ option_map_or (handlers.sets_handler_of (hosted H.rows) heap.now host.now
        name.now (operand_at operands.now.done 0)) (names.name_owner heap.now scope name.now)
        false }
{
    let undefined = Value::Undefined;
    let object = name_owner(heap, scope, name);
    sets_handler_of(host, heap, object, name, operand(operands, 0, &undefined))
}

/// Whether the step of a node writes a callable that is no wrap to a handler.
pub fn sets_handler<H: Host>(
    alloc: Global,
    row: ExprRow<'_>,
    at: &Context,
    operands: &Operands,
    heap: &Heap,
    host: &H,
) -> Result<bool, NoMemory>
    requires there { AreThere heap.now (operand_names operands.now (H.names.host host.now)) }
    requires scope { IsBelow (length heap.now.scopes) (option_map scope_number at.now.scope) }
    ensures { (a : Arena) → IfOk result (λ b. b ≡ handlers.sets_handler (hosted H.rows) at.now
        heap.now host.now (row_as a row.entry) operands.now.done) }
{
    match row {
        ExprRow::AssignName(name) => Ok(sets_name(name, at.scope, operands, heap, host)),
        ExprRow::AssignMember(key) => Ok(sets_property(key, 1, operands, heap, host)),
        ExprRow::AssignIndex => {
            let key = key_of(alloc, operands)?;
            Ok(sets_property(&key, 2, operands, heap, host))
        }
        _ => Ok(false),
    }
}
