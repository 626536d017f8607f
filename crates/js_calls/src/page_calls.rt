// Calls of a page's functions.
ghost use Rattle.std.specs.Prelude.{◌≡◌, ◌∷◌, ◌<◌, ◌&&◌, [], List, false, true};
ghost use Rattle.std.specs.Prelude.{IfOk, OnOk, Some, None, length};
ghost use Rattle.std.specs.Option.{option_copied, option_map, option_map_or};
ghost use Rattle.js_value.specs.Image.{image};
ghost use Rattle.js_value.specs.declared.value.Value.{Value as Held};
ghost use Rattle.js_heap.specs.Chains.{IsBelow};
ghost use Rattle.js_heap.specs.Closed.{IsThere};
ghost use Rattle.js_heap.specs.Objects.{with_object};
ghost use Rattle.js_heap.specs.Scopes.{scope_number};
ghost use Rattle.js_heap.specs.World.{World};
ghost use Rattle.js_heap.specs.declared.class.Class.TheVariants as class;
ghost use Rattle.js_heap.specs.declared.root.Root.TheVariants as root;
ghost use Rattle.js_host.specs.Names.{call_names, option_names};
ghost use Rattle.js_host.specs.There.{AreThere};
ghost use Rattle.js_reference.specs.Callables as callables;
ghost use Rattle.js_reference.specs.Errors.{next_object, root_object};
ghost use Rattle.js_reference.specs.Hosted.{hosted};
ghost use Rattle.js_reference.specs.Later.{IsLater};
ghost use Rattle.js_reference.specs.Room as room;
ghost use Rattle.js_term.specs.Operands.{listed};
ghost use Rattle.js_tree.specs.Arena.{Arena, function_at};
ghost use Rattle.js_tree.specs.TreeAt.{function_tree, tree_of};
ghost use Rattle.js_tree.specs.Trees.{nodes};
ghost use Rattle.js_stmt.specs.Made.{made as made_of};
ghost use Rattle.js_stmt.specs.Made.Progress.{GoesOn};
ghost use Rattle.js_stmt.specs.Parts.{IsHeld};
ghost use Rattle.js_stmt.specs.Rows.StmtRow.{Body as BodyRow};
ghost use Rattle.js_stmt.specs.Tries.{next_scope};
ghost use Rattle.js_stmt.specs.Wider.{IsWider};
ghost use Rattle.js_calls.specs.Calls as calls;
ghost use Rattle.js_calls.specs.Asks.{asks as asks_of};
ghost use Rattle.js_calls.specs.Entered.{Enters, EntersParts, entered_as, entered_names};
ghost use Rattle.js_calls.specs.Entered.{entered_scope};
ghost use Rattle.js_calls.specs.Entered.{function_as, parameter_names};
ghost use Rattle.js_calls.specs.Texts.{IsRead};

use crate::CallNames;
use crate::call_scope::make_call_scope;
use crate::function_parts::{FunctionParts, function_parts};
use crate::objects::new_object;
use js_heap::{COUNT_LIMIT, Class, Code, Heap, Root};
use js_host::{Host, NativeCall, native_of as native_row};
use js_reference::{ErrorName, as_object, native_of, new_error, objects_fit, property, scopes_fit};
use js_stmt::restart;
use js_term::{Context, Operands};
use js_tree::{NodeId, Scope, Script};
use js_value::{NativeId, ObjId, Value};
use mug_text::{Listed, NoMemory};
use std::alloc::Global;

/// What the call of a page's function comes to.
#[derive(Drop)]
pub enum Entered {
    /// The function's body, at the function's node: it runs in this context over its statements.
    /// `made` is the object that `new` made.
    Body {
        node: NodeId,
        context: Context,
        made: Option<Value>,
        operands: Operands,
    },
    /// The call throws, as its scope and objects don't fit.
    Throws(Value),
}

// Whether the objects of a call fit whose scope has these names.
#[tactic(auto, using(crate::proofs::Counts::no_room, crate::proofs::Counts::same_room))]
fn objects_of_call_fit(heap: &Heap, names: &Scope, construct: bool) -> bool
    ensures { result ≡ room.objects_fit heap.now (calls.objects_with names.now construct) }
{
    let functions = names.functions.len();
    if functions > COUNT_LIMIT {
        return false;
    }
    let others = usize::from(names.has_arguments) + usize::from(construct);
    objects_fit(heap, 2 * functions + others)
}

// Whether a native asks.
fn native_asks(native: NativeId) -> bool
    ensures { result ≡ asks_of native }
{
    match native_row(native) {
        Some(row) => row.asks.is_some(),
        None => false,
    }
}

// Whether the object is a native function that asks.
fn asks(heap: &Heap, object: ObjId) -> bool
    requires { object.number < length heap.now.objects }
    ensures { result
        ≡ option_map_or asks_of (callables.native_of heap.now (Value.Ref object)) false }
{
    match native_of(heap, &Value::Ref(object)) {
        Some(native) => native_asks(native),
        None => false,
    }
}

// The object, unless it is a native function that asks.
fn calm(heap: &Heap, object: ObjId) -> ObjId
    requires { object.number < length heap.now.objects }
    ensures is { result ≡ calls.prototype_or asks_of heap.now (Some object) }
    ensures there { result.number < length heap.now.objects }
{
    if asks(heap, object) {
        heap.root(Root::ObjectPrototype)
    } else {
        object
    }
}

// The prototype that a function's `prototype` gives (ECMA-262 edition 5.1, 13.2.2).
#[tactic(auto, using(crate::proofs::CallSteps::object_there))]
fn prototype_of(heap: &Heap, value: &Value) -> ObjId
    requires { IsThere heap.now value.now }
    ensures is { result ≡ calls.prototype_or asks_of heap.now (callables.as_object value.now) }
    ensures there { result.number < length heap.now.objects }
{
    match as_object(value) {
        Some(object) => calm(heap, object),
        None => heap.root(Root::ObjectPrototype),
    }
}

// The prototype of what `new` makes (13.2.2).
fn made_prototype<H: Host>(
    alloc: Global,
    host: &H,
    heap: &Heap,
    names: &CallNames,
    callee: &Value,
) -> Result<ObjId, NoMemory>
    requires { AreThere heap.now (callee.now ∷ H.names.host host.now) }
    ensures is { IfOk result (λ o. o
        ≡ calls.prototype_by (hosted H.rows) asks_of heap.now host.now callee.now) }
    ensures there { IfOk result (λ o. o.number < length heap.now.objects) }
{
    match property(alloc, host, heap, callee, &names.prototype)? {
        Some(value) => Ok(prototype_of(heap, &value)),
        None => Ok(heap.root(Root::ObjectPrototype)),
    }
}

// Undefined and null are the window (10.4.3).
fn called_this(heap: &Heap, this: Value) -> Value
    requires { IsThere heap.now this }
    ensures is { result ≡ calls.this_of this }
    ensures there { IsThere heap.now result }
{
    if matches!(this, Value::Undefined | Value::Null) {
        Value::Ref(heap.root(Root::Window))
    } else {
        this
    }
}

// The object that `new` makes.
#[tactic(auto, using(crate::proofs::CallSteps::object_later))]
fn made_object<H: Host>(
    alloc: Global,
    host: &H,
    heap: &mut Heap,
    names: &CallNames,
    callee: &Value,
) -> Result<Value, NoMemory>
    requires { AreThere heap.old (callee.now ∷ H.names.host host.now) }
    ensures is { IfOk result (λ v. v ≡ Value.Ref (next_object heap.old)) }
    ensures made { OnOk result (heap.new ≡ with_object heap.old class.Object
        (Some (calls.prototype_by (hosted H.rows) asks_of heap.old host.now callee.now))) }
    ensures later { OnOk result (IsLater heap.old heap.new) }
    ensures there { IfOk result (λ v. IsThere heap.new v) }
{
    let prototype = made_prototype(alloc, host, heap, names, callee)?;
    let object = new_object(heap, Class::Object, prototype)?;
    Ok(Value::Ref(object))
}

// Into the body, with this `this`.
fn into_body(
    alloc: Global,
    heap: &mut Heap,
    names: &CallNames,
    code: Code,
    node: NodeId,
    parts: FunctionParts<'_>,
    callee: Value,
    this: Value,
    made: Option<Value>,
    arguments: &Listed<Value>,
) -> Result<Entered, NoMemory>
    requires fits { length heap.old.scopes < COUNT_LIMIT }
    requires scope { IsBelow (length heap.old.scopes) (option_map scope_number code.scope) }
    requires there { AreThere heap.old (callee ∷ arguments.now) }
    ensures is { (a : Arena) → IsHeld a (nodes parts.entry.statements.now) → IfOk result (λ r.
        entered_as a r ≡ GoesOn (BodyRow (record {
          text = code.text;
          scope = Some (next_scope heap.old);
          this = this;
        }) made)
        [] (listed (tree_of a (nodes parts.entry.statements.now)))) }
    ensures world { OnOk result (heap.new ≡ calls.with_declared parts.entry.scope.now code
        (option_copied parts.entry.own) (parameter_names parts.entry.parameters) callee
        arguments.now (next_scope heap.old) heap.old) }
    ensures node { IfOk result (λ r. Enters r (Some node)) }
    ensures there { (w : World) (vs : List Held) → AreThere w (this ∷ option_names made vs)
        → IfOk result (λ r. AreThere w (entered_names r vs)) }
    ensures parts { IfOk result (λ r. EntersParts r) }
    ensures inner { IfOk result (λ r. IsBelow (length heap.new.scopes) (entered_scope r)) }
    ensures more { OnOk result (IsWider heap.old heap.new) }
{
    let scope = make_call_scope(heap, names, code, parts, callee, arguments)?;
    let mut operands = Operands::new(alloc);
    restart(alloc, &mut operands, parts.statements)?;
    let context = Context {
        text: code.text,
        scope: Some(scope),
        this,
    };
    Ok(Entered::Body {
        node,
        context,
        made,
        operands,
    })
}

// Into the body of a `new`.
fn into_new<H: Host>(
    alloc: Global,
    host: &H,
    heap: &mut Heap,
    names: &CallNames,
    code: Code,
    node: NodeId,
    parts: FunctionParts<'_>,
    callee: Value,
    arguments: &Listed<Value>,
) -> Result<Entered, NoMemory>
    requires fits { length heap.old.scopes < COUNT_LIMIT }
    requires scope { IsBelow (length heap.old.scopes) (option_map scope_number code.scope) }
    requires there { AreThere heap.old (callee ∷ arguments.now) }
    requires host { AreThere heap.old (H.names.host host.now) }
    ensures value { (a : Arena) → IsHeld a (nodes parts.entry.statements.now)
        → parts.entry.scope.now ≡ calls.scope_of (function_as a parts.entry) → IfOk result (λ r.
        made_of (entered_as a r) heap.new host.now ≡ calls.into_body (hosted H.rows) asks_of
        heap.old host.now code (function_as a parts.entry) callee
        (Value.Ref (next_object heap.old)) (Some (Value.Ref (next_object heap.old))) arguments.now
        (with_object heap.old class.Object (Some (calls.prototype_by (hosted H.rows) asks_of
        heap.old host.now callee)))) }
    ensures node { IfOk result (λ r. Enters r (Some node)) }
    ensures there { IfOk result (λ r.
        AreThere heap.new (entered_names r (H.names.host host.now))) }
    ensures parts { IfOk result (λ r. EntersParts r) }
    ensures inner { IfOk result (λ r. IsBelow (length heap.new.scopes) (entered_scope r)) }
    ensures more { OnOk result (IsWider heap.old heap.new) }
{
    let made = made_object(alloc, host, heap, names, &callee)?;
    let this = made.copy()?;
    into_body(
        alloc,
        heap,
        names,
        code,
        node,
        parts,
        callee,
        this,
        Some(made),
        arguments,
    )
}

// Into the body of a call.
fn into_call<H: Host>(
    alloc: Global,
    host: &H,
    heap: &mut Heap,
    names: &CallNames,
    code: Code,
    node: NodeId,
    parts: FunctionParts<'_>,
    callee: Value,
    this: Value,
    arguments: &Listed<Value>,
) -> Result<Entered, NoMemory>
    requires fits { length heap.old.scopes < COUNT_LIMIT }
    requires scope { IsBelow (length heap.old.scopes) (option_map scope_number code.scope) }
    requires there { AreThere heap.old (callee ∷ arguments.now) }
    requires this { IsThere heap.old this }
    requires host { AreThere heap.old (H.names.host host.now) }
    ensures value { (a : Arena) → IsHeld a (nodes parts.entry.statements.now)
        → parts.entry.scope.now ≡ calls.scope_of (function_as a parts.entry) → IfOk result (λ r.
        made_of (entered_as a r) heap.new host.now ≡ calls.into_body (hosted H.rows) asks_of
        heap.old host.now code (function_as a parts.entry) callee (calls.this_of this) None
        arguments.now heap.old) }
    ensures node { IfOk result (λ r. Enters r (Some node)) }
    ensures there { IfOk result (λ r.
        AreThere heap.new (entered_names r (H.names.host host.now))) }
    ensures parts { IfOk result (λ r. EntersParts r) }
    ensures inner { IfOk result (λ r. IsBelow (length heap.new.scopes) (entered_scope r)) }
    ensures more { OnOk result (IsWider heap.old heap.new) }
{
    let this = called_this(heap, this);
    into_body(
        alloc, heap, names, code, node, parts, callee, this, None, arguments,
    )
}

// The value that a callee is without its wrap.
#[tactic(auto, using(crate::proofs::CallSteps::image_there))]
fn callee_of(heap: &Heap, f: &Value) -> Result<Value, NoMemory>
    requires { IsThere heap.now f.now }
    ensures is { IfOk result (λ v. v ≡ image f.now) }
    ensures there { IfOk result (λ v. IsThere heap.now v) }
{
    let _objects = heap.object_count();
    Ok(f.copy()?.image())
}

// Whether the objects and the scope of a call fit.
fn call_fits(heap: &Heap, names: &Scope, construct: bool) -> bool
    ensures is { result ≡ (room.objects_fit heap.now (calls.objects_with names.now construct)
        && room.scopes_fit heap.now 1) }
    ensures scopes { result ≡ true → length heap.now.scopes < COUNT_LIMIT }
{
    objects_of_call_fit(heap, names, construct) && scopes_fit(heap, 1)
}

// The call of the function of these parts.
fn call_parts<H: Host>(
    alloc: Global,
    host: &H,
    heap: &mut Heap,
    names: &CallNames,
    code: Code,
    node: NodeId,
    parts: FunctionParts<'_>,
    f: &Value,
    call: NativeCall,
) -> Result<Entered, NoMemory>
    requires scope { IsBelow (length heap.old.scopes) (option_map scope_number code.scope) }
    requires there { AreThere heap.old (f.now ∷ call_names call (H.names.host host.now)) }
    ensures value { (a : Arena) → IsHeld a (nodes parts.entry.statements.now)
        → parts.entry.scope.now ≡ calls.scope_of (function_as a parts.entry) → IfOk result (λ r.
        made_of (entered_as a r) heap.new host.now ≡ calls.call_function (hosted H.rows) asks_of
        heap.old host.now code (function_as a parts.entry) (image f.now) call.construct
        call.this call.args) }
    ensures node { IfOk result (λ r. Enters r (Some node)) }
    ensures there { IfOk result (λ r.
        AreThere heap.new (entered_names r (H.names.host host.now))) }
    ensures parts { IfOk result (λ r. EntersParts r) }
    ensures inner { IfOk result (λ r. IsBelow (length heap.new.scopes) (entered_scope r)) }
    ensures more { OnOk result (IsWider heap.old heap.new) }
{
    if !call_fits(heap, parts.scope, call.construct) {
        let error = new_error(alloc, heap, ErrorName::RangeError)?;
        return Ok(Entered::Throws(error));
    }
    let callee = callee_of(heap, f)?;
    if call.construct {
        into_new(
            alloc, host, heap, names, code, node, parts, callee, &call.args,
        )
    } else {
        into_call(
            alloc, host, heap, names, code, node, parts, callee, call.this, &call.args,
        )
    }
}

/// A call of the function that begins at a unit of this script's text, or a `new` of it (10.4.3,
/// 13.2.1, 13.2.2). There is no memory for a function that the text doesn't have.
pub fn call_function<H: Host>(
    alloc: Global,
    script: &Script,
    host: &H,
    heap: &mut Heap,
    names: &CallNames,
    code: Code,
    f: &Value,
    call: NativeCall,
) -> Result<Entered, NoMemory>
    requires read { IsRead script.now }
    requires scope { IsBelow (length heap.old.scopes) (option_map scope_number code.scope) }
    requires there { AreThere heap.old (f.now ∷ call_names call (H.names.host host.now)) }
    ensures value { IfOk result (λ r. made_of (entered_as script.now r) heap.new host.now
        ≡ calls.call_function (hosted H.rows) asks_of heap.old host.now code
        (calls.function_in (function_tree script.now code.node)) (image f.now) call.construct
        call.this call.args) }
    ensures node { IfOk result (λ r. Enters r (function_at script.now code.node)) }
    ensures there { IfOk result (λ r.
        AreThere heap.new (entered_names r (H.names.host host.now))) }
    ensures parts { IfOk result (λ r. EntersParts r) }
    ensures inner { IfOk result (λ r. IsBelow (length heap.new.scopes) (entered_scope r)) }
    ensures more { OnOk result (IsWider heap.old heap.new) }
{
    let Some(node) = script.function_at(code.node) else {
        return Err(NoMemory);
    };
    let Some(parts) = function_parts(script, node) else {
        return Err(NoMemory);
    };
    call_parts(alloc, host, heap, names, code, node, parts, f, call)
}
