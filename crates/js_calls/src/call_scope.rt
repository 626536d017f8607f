// The scope of a call.
ghost use Rattle.std.specs.Prelude.{◌≡◌, ◌∷◌, ◌<◌, [], IfOk, OnOk, Some, codes, decimal};
ghost use Rattle.std.specs.Prelude.{length, slice_get, true, unwrap_or};
ghost use Rattle.std.specs.Option.{option_copied, option_map};
ghost use Rattle.js_heap.specs.Chains.{IsBelow};
ghost use Rattle.js_heap.specs.Closed.{IsThere};
ghost use Rattle.js_heap.specs.Puts.{put as put_in};
ghost use Rattle.js_heap.specs.Scopes.{declare as declared_in, scope_number};
ghost use Rattle.js_heap.specs.declared.fault.TheConstants.{COUNT_LIMIT};
ghost use Rattle.js_host.specs.There.{AreThere};
ghost use Rattle.js_reference.specs.Errors.{next_object};
ghost use Rattle.js_reference.specs.Functions.{with_function};
ghost use Rattle.js_reference.specs.Later.{IsLater};
ghost use Rattle.js_calls.specs.Calls as calls;
ghost use Rattle.js_calls.specs.Entered.{parameter_names};
ghost use Rattle.js_stmt.specs.Tries.{next_scope};
ghost use Rattle.js_stmt.specs.Wider.{IsWider};

use crate::CallNames;
use crate::function_parts::{FunctionParts, Parameters};
use crate::objects::new_object;
use js_heap::{Class, Code, Heap, PutFault, Root, ScopeId};
use js_reference::{make_function, objects_fit};
use js_stmt::new_scope;
use js_tree::Declared;
use js_value::{Num, ObjId, Value};
use mug_text::{JText, Listed, NoMemory};

// A name of the scope is given a value.
#[tactic(auto, using(crate::proofs::CallSteps::declared_later))]
fn declare(heap: &mut Heap, scope: ScopeId, name: &JText, value: Value) -> Result<(), NoMemory>
    requires scope { scope.number < length heap.old.scopes }
    requires value { IsThere heap.old value }
    ensures is { OnOk result (heap.new ≡ declared_in heap.old scope name.now value) }
    ensures later { OnOk result (IsLater heap.old heap.new) }
{
    heap.declare(scope, name, value)
}

// Each name is there from the start, and undefined (ECMA-262 edition 5.1, 10.5, step 8).
#[tactic(auto, using(crate::proofs::CallSteps::later_twice))]
fn declare_names(heap: &mut Heap, scope: ScopeId, names: &[JText]) -> Result<(), NoMemory>
    requires { scope.number < length heap.old.scopes }
    ensures is { OnOk result (heap.new ≡ calls.with_names scope names.now heap.old) }
    ensures later { OnOk result (IsLater heap.old heap.new) }
{
    for name in names {
        declare(heap, scope, name, Value::Undefined)?;
    }
    Ok(())
}

// A copy of the argument at this place; undefined where there is none.
#[tactic(auto, using(crate::proofs::CallSteps::argument_there))]
fn argument(heap: &Heap, arguments: &[Value], at: usize) -> Result<Value, NoMemory>
    requires { AreThere heap.now arguments.now }
    ensures is { IfOk result (λ v. v ≡ unwrap_or (slice_get arguments.now at) Value.Undefined) }
    ensures there { IfOk result (λ v. IsThere heap.now v) }
{
    let _objects = heap.object_count();
    match arguments.get(at) {
        Some(value) => value.copy(),
        None => Ok(Value::Undefined),
    }
}

// The parameters are the arguments (10.5, step 4).
fn declare_listed(
    heap: &mut Heap,
    scope: ScopeId,
    parameters: &[JText],
    arguments: &[Value],
) -> Result<(), NoMemory>
    requires scope { scope.number < length heap.old.scopes }
    requires there { AreThere heap.old arguments.now }
    ensures is { OnOk result
        (heap.new ≡ calls.with_parameters scope parameters.now arguments.now heap.old) }
    ensures later { OnOk result (IsLater heap.old heap.new) }
{
    for at in 0..parameters.len() {
        let value = argument(heap, arguments, at)?;
        declare(heap, scope, &parameters[at], value)?;
    }
    Ok(())
}

// The same of a handler, whose parameter is `event`.
fn declare_event(
    heap: &mut Heap,
    names: &CallNames,
    scope: ScopeId,
    arguments: &[Value],
) -> Result<(), NoMemory>
    requires scope { scope.number < length heap.old.scopes }
    requires there { AreThere heap.old arguments.now }
    ensures is { OnOk result
        (heap.new ≡ calls.with_parameters scope (codes "event" ∷ []) arguments.now heap.old) }
    ensures later { OnOk result (IsLater heap.old heap.new) }
{
    let value = argument(heap, arguments, 0)?;
    declare(heap, scope, &names.event, value)
}

fn declare_parameters(
    heap: &mut Heap,
    names: &CallNames,
    scope: ScopeId,
    parameters: Parameters<'_>,
    arguments: &[Value],
) -> Result<(), NoMemory>
    requires scope { scope.number < length heap.old.scopes }
    requires there { AreThere heap.old arguments.now }
    ensures is { OnOk result (heap.new
        ≡ calls.with_parameters scope (parameter_names parameters.entry) arguments.now heap.old) }
    ensures later { OnOk result (IsLater heap.old heap.new) }
{
    match parameters {
        Parameters::Listed(parameters) => declare_listed(heap, scope, parameters, arguments),
        Parameters::Event => declare_event(heap, names, scope, arguments),
    }
}

// A new function, where its objects fit.
#[tactic(auto, using(crate::proofs::CallSteps::function_later))]
pub(crate) fn new_function(
    heap: &mut Heap,
    names: &CallNames,
    code: Code,
) -> Result<ObjId, NoMemory>
    requires { IsBelow (length heap.old.scopes) (option_map scope_number code.scope) }
    ensures is { OnOk result (heap.new ≡ with_function heap.old code) }
    ensures number { IfOk result (λ o. o ≡ next_object heap.old) }
    ensures later { OnOk result (IsLater heap.old heap.new) }
    ensures there { IfOk result (λ o. o.number < length heap.new.objects) }
{
    if !objects_fit(heap, 2) {
        return Err(NoMemory);
    }
    make_function(heap, &names.function, code)
}

// A declared function (10.5, step 5).
#[tactic(auto, using(crate::proofs::CallSteps::later_twice, crate::proofs::CallSteps::scope_later))]
fn declare_function(
    heap: &mut Heap,
    names: &CallNames,
    text: u32,
    scope: ScopeId,
    declared: &Declared,
) -> Result<(), NoMemory>
    requires { scope.number < length heap.old.scopes }
    ensures is { OnOk result (heap.new
        ≡ calls.with_functions text scope (declared.now ∷ []) heap.old) }
    ensures later { OnOk result (IsLater heap.old heap.new) }
{
    let code = Code {
        text,
        node: declared.at,
        scope: Some(scope),
    };
    let function = new_function(heap, names, code)?;
    declare(heap, scope, &declared.name, Value::Ref(function))
}

// The declared functions.
fn declare_functions(
    heap: &mut Heap,
    names: &CallNames,
    text: u32,
    scope: ScopeId,
    functions: &[Declared],
) -> Result<(), NoMemory>
    requires { scope.number < length heap.old.scopes }
    ensures is { OnOk result (heap.new
        ≡ calls.with_functions text scope functions.now heap.old) }
    ensures later { OnOk result (IsLater heap.old heap.new) }
{
    for declared in functions {
        declare_function(heap, names, text, scope, declared)?;
    }
    Ok(())
}

// An object is given an element.
#[tactic(auto, using(crate::proofs::CallSteps::put_later))]
fn put_element(heap: &mut Heap, object: ObjId, index: u32, value: Value) -> Result<(), NoMemory>
    requires object { object.number < length heap.old.objects }
    requires value { IsThere heap.old value }
    ensures is { OnOk result
        (heap.new ≡ put_in heap.old object (decimal index) value true) }
    ensures later { OnOk result (IsLater heap.old heap.new) }
{
    heap.put_at(object, index, value, true)
}

// The arguments at their indices (10.6), and their number.
fn put_arguments(heap: &mut Heap, object: ObjId, arguments: &[Value]) -> Result<u32, NoMemory>
    requires object { object.number < length heap.old.objects }
    requires there { AreThere heap.old arguments.now }
    ensures is { IfOk result (λ n. calls.with_indices object 0 arguments.now heap.old
        ≡ calls.with_indices object n [] heap.new) }
    ensures later { OnOk result (IsLater heap.old heap.new) }
{
    let Ok(count) = u32::try_from(arguments.len()) else {
        return Err(NoMemory);
    };
    for index in 0..count {
        let value = argument(heap, arguments, index as usize)?;
        put_element(heap, object, index, value)?;
    }
    Ok(count)
}

// A property that is no element.
#[tactic(auto, using(crate::proofs::CallSteps::put_later))]
pub(crate) fn put_property(
    heap: &mut Heap,
    object: ObjId,
    name: &JText,
    value: Value,
    listed: bool,
) -> Result<(), NoMemory>
    requires object { object.number < length heap.old.objects }
    requires value { IsThere heap.old value }
    ensures is { OnOk result
        (heap.new ≡ put_in heap.old object name.now value listed) }
    ensures later { OnOk result (IsLater heap.old heap.new) }
{
    match heap.put(object, name, value, listed) {
        Ok(()) => Ok(()),
        Err(PutFault::BadLength) => Err(NoMemory),
        Err(PutFault::NoMemory) => Err(NoMemory),
    }
}

// The object of the arguments, with their number.
fn arguments_object(
    heap: &mut Heap,
    names: &CallNames,
    arguments: &[Value],
) -> Result<ObjId, NoMemory>
    requires { AreThere heap.old arguments.now }
    ensures is { OnOk result
        (heap.new ≡ calls.with_arguments_object arguments.now heap.old) }
    ensures number { IfOk result (λ o. o ≡ next_object heap.old) }
    ensures later { OnOk result (IsLater heap.old heap.new) }
    ensures there { IfOk result (λ o. o.number < length heap.new.objects) }
{
    let prototype = heap.root(Root::ObjectPrototype);
    let object = new_object(heap, Class::Arguments, prototype)?;
    let count = put_arguments(heap, object, arguments)?;
    let length = Value::Num(Num::Whole(count.into()));
    put_property(heap, object, &names.length, length, false)?;
    Ok(object)
}

// `arguments` as that object, where the scope has it as that (10.5, step 7).
#[tactic(auto, using(crate::proofs::Joined::no_arguments))]
fn declare_arguments(
    heap: &mut Heap,
    names: &CallNames,
    scope: ScopeId,
    has_arguments: bool,
    arguments: &[Value],
) -> Result<(), NoMemory>
    requires scope { scope.number < length heap.old.scopes }
    requires there { AreThere heap.old arguments.now }
    ensures is { OnOk result
        (heap.new ≡ calls.with_arguments has_arguments scope arguments.now heap.old) }
    ensures later { OnOk result (IsLater heap.old heap.new) }
{
    if !has_arguments {
        return Ok(());
    }
    let object = arguments_object(heap, names, arguments)?;
    declare(heap, scope, &names.arguments, Value::Ref(object))
}

// A name of the function's own (13).
#[tactic(auto, using(crate::proofs::Joined::no_own_name))]
fn declare_own_name(
    heap: &mut Heap,
    scope: ScopeId,
    has_own_name: bool,
    name: &JText,
    callee: Value,
) -> Result<(), NoMemory>
    requires scope { scope.number < length heap.old.scopes }
    requires callee { IsThere heap.old callee }
    ensures is { OnOk result (heap.new
        ≡ calls.with_own_name has_own_name scope (Some name.now) callee heap.old) }
    ensures later { OnOk result (IsLater heap.old heap.new) }
{
    if !has_own_name {
        return Ok(());
    }
    declare(heap, scope, name, callee)
}

// The function's own name, where the scope has it as the function.
#[tactic(auto, using(crate::proofs::Joined::unnamed))]
fn declare_own(
    heap: &mut Heap,
    scope: ScopeId,
    parts: FunctionParts<'_>,
    callee: Value,
) -> Result<(), NoMemory>
    requires scope { scope.number < length heap.old.scopes }
    requires callee { IsThere heap.old callee }
    ensures is { OnOk result (heap.new ≡ calls.with_own_name
        parts.entry.scope.now.has_own_name scope (option_copied parts.entry.own) callee heap.old) }
    ensures later { OnOk result (IsLater heap.old heap.new) }
{
    match parts.own {
        Some(name) => declare_own_name(heap, scope, parts.scope.has_own_name, name, callee),
        None => Ok(()),
    }
}

// What the scope declares: its names, the parameters, and the functions.
fn declare_all(
    heap: &mut Heap,
    names: &CallNames,
    text: u32,
    scope: ScopeId,
    parts: FunctionParts<'_>,
    arguments: &[Value],
) -> Result<(), NoMemory>
    requires scope { scope.number < length heap.old.scopes }
    requires there { AreThere heap.old arguments.now }
    ensures is { OnOk result (heap.new
        ≡ calls.with_arguments parts.entry.scope.now.has_arguments scope arguments.now
        (calls.with_functions text scope parts.entry.scope.now.functions
        (calls.with_parameters scope (parameter_names parts.entry.parameters) arguments.now
        (calls.with_names scope parts.entry.scope.now.names heap.old)))) }
    ensures later { OnOk result (IsLater heap.old heap.new) }
{
    declare_names(heap, scope, parts.scope.names.as_slice())?;
    declare_parameters(heap, names, scope, parts.parameters, arguments)?;
    declare_functions(heap, names, text, scope, parts.scope.functions.as_slice())?;
    declare_arguments(heap, names, scope, parts.scope.has_arguments, arguments)
}

/// The scope of a call, with all that it declares.
#[tactic(auto, using(crate::proofs::CallSteps::wider_by))]
pub(crate) fn make_call_scope(
    heap: &mut Heap,
    names: &CallNames,
    code: Code,
    parts: FunctionParts<'_>,
    callee: Value,
    arguments: &Listed<Value>,
) -> Result<ScopeId, NoMemory>
    requires fits { length heap.old.scopes < COUNT_LIMIT }
    requires scope { IsBelow (length heap.old.scopes) (option_map scope_number code.scope) }
    requires there { AreThere heap.old (callee ∷ arguments.now) }
    ensures is { OnOk result (heap.new ≡ calls.with_declared parts.entry.scope.now code
        (option_copied parts.entry.own) (parameter_names parts.entry.parameters) callee
        arguments.now (next_scope heap.old) heap.old) }
    ensures number { IfOk result (λ s. s ≡ next_scope heap.old) }
    ensures there { IfOk result (λ s. s.number < length heap.new.scopes) }
    ensures wider { OnOk result (IsWider heap.old heap.new) }
{
    let scope = new_scope(heap, code.scope)?;
    declare_all(heap, names, code.text, scope, parts, arguments.as_slice())?;
    declare_own(heap, scope, parts, callee)?;
    Ok(scope)
}
