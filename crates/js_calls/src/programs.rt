// What a program declares.
ghost use Rattle.std.specs.Prelude.{◌≡◌, ◌*◌, ◌∷◌, ◌||◌, ℕ, List, true, IfOk, OnOk, is_some, not};
ghost use Rattle.js_value.specs.declared.value.ObjId.{ObjId};
ghost use Rattle.js_value.specs.declared.value.Value.{Value as Held};
ghost use Rattle.js_value.specs.declared.value.Value.TheVariants.{Ref};
ghost use Rattle.js_host.specs.Names.{option_names};
ghost use Rattle.js_host.specs.There.{AreThere};
ghost use Rattle.js_host.specs.declared.call.Order.TheVariants as order;
ghost use Rattle.js_reference.specs.Answers.{Gives, answered_names};
ghost use Rattle.js_reference.specs.Functions.{objects_of_function};
ghost use Rattle.js_reference.specs.Hosted.{hosted};
ghost use Rattle.js_reference.specs.Later.{IsLater};
ghost use Rattle.js_reference.specs.Properties.{object_property};
ghost use Rattle.js_reference.specs.Puts.{window as window_id};
ghost use Rattle.js_reference.specs.Room as room;
ghost use Rattle.js_tree.specs.Names as names_of;
ghost use Rattle.js_tree.specs.TreeAt.{root_tree};
ghost use Rattle.js_calls.specs.Programs as programs;
ghost use Rattle.js_calls.specs.Programs.{window_handler};
ghost use Rattle.js_calls.specs.Texts.{IsProgram, program_in};

use crate::CallNames;
use crate::call_scope::{new_function, put_property};
use js_heap::{COUNT_LIMIT, Code, Heap, Root};
use js_host::{Host, Order, tests_last, there_is_among_the_objects};
use js_reference::{Answered, ErrorName, objects_fit, property, thrown, write_object};
use js_tree::{Declared, Node, Scope, Script};
use js_value::{ObjId, Value};
use mug_text::{JText, NoMemory};
use std::alloc::Global;

// A host takes the order of a handler for each property that sets one; after it the objects are
// there that were, and what the host holds is.
fn handlers_keep<H: Host>(heap: &Heap)
    ensures taken { (h : H) (o : ObjId) (x : List ℕ) (v : Held)
        → H.rows.is_handler heap.now h o x ≡ true
        → H.rows.takes heap.now h (order.Handler o x v) ≡ true }
    ensures there { (h : H) (o : ObjId) (x : List ℕ) (v : Held)
        → H.rows.is_handler heap.now h o x ≡ true
        → AreThere heap.now (Ref o ∷ v ∷ H.names.host h)
        → let r = H.rows.order heap.now h (order.Handler o x v) in
        AreThere r.1 (option_names r.0 (H.names.host r.2)) }
    ensures later { (h : H) (o : ObjId) (x : List ℕ) (v : Held)
        → H.rows.is_handler heap.now h o x ≡ true
        → IsLater heap.now (H.rows.order heap.now h (order.Handler o x v)).1 }
{
    tests_last();
    there_is_among_the_objects();
    let _objects = heap.object_count();
    let _last = heap.root(Root::RequestPrototype);
}

// A function of a handler's name sets the window's handler.
fn set_handler<H: Host>(
    host: &mut H,
    heap: &mut Heap,
    window: ObjId,
    name: &JText,
    function: Value,
) -> Result<Answered, NoMemory>
    requires there { AreThere heap.old (Ref window ∷ function ∷ H.names.host host.old) }
    requires window { window ≡ window_id }
    requires handler { H.rows.is_handler heap.old host.old window name.now ≡ true }
    ensures value { IfOk result (λ a. Gives (programs.of_pair (hosted H.rows)
        (window_handler H.rows) function
        (window_handler H.rows heap.old host.old name.now function)) a heap.new host.new) }
    ensures there { IfOk result (λ a.
        AreThere heap.new (answered_names a (H.names.host host.new))) }
    ensures more { OnOk result (IsLater heap.old heap.new) }
{
    handlers_keep::<H>(heap);
    let written = name.copy()?;
    let given = function.copy()?;
    let _ = host.order(heap, Order::Handler(window, written, given))?;
    Ok(Answered::Returns(function))
}

// A function is given to its name on the window (ECMA-262 edition 5.1, 10.5).
fn global_function<H: Host>(
    alloc: Global,
    host: &mut H,
    heap: &mut Heap,
    name: &JText,
    function: Value,
) -> Result<Answered, NoMemory>
    requires { AreThere heap.old (function ∷ H.names.host host.old) }
    ensures value { IfOk result (λ a. Gives (programs.global_function (hosted H.rows)
        (window_handler H.rows) heap.old host.old name.now function) a heap.new host.new) }
    ensures there { IfOk result (λ a.
        AreThere heap.new (answered_names a (H.names.host host.new))) }
    ensures more { OnOk result (IsLater heap.old heap.new) }
{
    let window = heap.root(Root::Window);
    if host.is_handler(heap, window, name) {
        return set_handler(host, heap, window, name, function);
    }
    write_object(alloc, host, heap, window, name, function)
}

// One of its functions.
fn declare_function<H: Host>(
    alloc: Global,
    host: &mut H,
    heap: &mut Heap,
    names: &CallNames,
    text: u32,
    declared: &Declared,
) -> Result<Answered, NoMemory>
    requires { AreThere heap.old (H.names.host host.old) }
    ensures value { IfOk result (λ a. Gives (programs.declare_function (hosted H.rows)
        (window_handler H.rows) text declared.now heap.old host.old) a heap.new host.new) }
    ensures there { IfOk result (λ a.
        AreThere heap.new (answered_names a (H.names.host host.new))) }
    ensures more { OnOk result (IsLater heap.old heap.new) }
{
    let code = Code {
        text,
        node: declared.at,
        scope: None,
    };
    let function = new_function(heap, names, code)?;
    global_function(alloc, host, heap, &declared.name, Value::Ref(function))
}

// Its functions, up to the first that throws.
fn declare_functions<H: Host>(
    alloc: Global,
    host: &mut H,
    heap: &mut Heap,
    names: &CallNames,
    text: u32,
    functions: &[Declared],
) -> Result<Answered, NoMemory>
    requires { AreThere heap.old (H.names.host host.old) }
    ensures value { IfOk result (λ a. Gives (programs.declare_functions (hosted H.rows)
        (window_handler H.rows) text functions.now heap.old host.old) a heap.new host.new) }
    ensures there { IfOk result (λ a.
        AreThere heap.new (answered_names a (H.names.host host.new))) }
    ensures more { OnOk result (IsLater heap.old heap.new) }
{
    for declared in functions {
        let answered = declare_function(alloc, host, heap, names, text, declared)?;
        if let Answered::Throws(error) = answered {
            return Ok(Answered::Throws(error));
        }
    }
    Ok(Answered::Returns(Value::Undefined))
}

// Whether nothing of the name is there, and a write to it sets no handler.
fn is_undeclared<H: Host>(
    alloc: Global,
    host: &H,
    heap: &Heap,
    name: &JText,
) -> Result<bool, NoMemory>
    requires { AreThere heap.now (H.names.host host.now) }
    ensures { IfOk result (λ b. not b ≡
        (is_some (object_property (hosted H.rows) heap.now host.now window_id name.now)
        || H.rows.is_handler heap.now host.now window_id name.now)) }
{
    let window = heap.root(Root::Window);
    if property(alloc, host, heap, &Value::Ref(window), name)?.is_some() {
        return Ok(false);
    }
    Ok(!host.is_handler(heap, window, name))
}

// A variable is undefined, where nothing of its name is there.
fn declare_variable<H: Host>(
    alloc: Global,
    host: &H,
    heap: &mut Heap,
    name: &JText,
) -> Result<(), NoMemory>
    requires { AreThere heap.old (H.names.host host.now) }
    ensures is { OnOk result (heap.new ≡ programs.declare_variable (hosted H.rows)
        (window_handler H.rows) name.now heap.old host.now) }
    ensures more { OnOk result (IsLater heap.old heap.new) }
{
    if !is_undeclared(alloc, host, heap, name)? {
        return Ok(());
    }
    let window = heap.root(Root::Window);
    put_property(heap, window, name, Value::Undefined, true)
}

// Its variables.
fn declare_variables<H: Host>(
    alloc: Global,
    host: &H,
    heap: &mut Heap,
    names: &[JText],
) -> Result<(), NoMemory>
    requires { AreThere heap.old (H.names.host host.now) }
    ensures is { OnOk result (heap.new ≡ programs.declare_variables (hosted H.rows)
        (window_handler H.rows) names.now heap.old host.now) }
    ensures more { OnOk result (IsLater heap.old heap.new) }
{
    for name in names {
        declare_variable(alloc, host, heap, name)?;
    }
    Ok(())
}

// Its functions, and then its variables.
fn declare_names<H: Host>(
    alloc: Global,
    host: &mut H,
    heap: &mut Heap,
    names: &CallNames,
    scope: &Scope,
    text: u32,
) -> Result<Answered, NoMemory>
    requires { AreThere heap.old (H.names.host host.old) }
    ensures value { IfOk result (λ a. Gives (programs.declare_names (hosted H.rows)
        (window_handler H.rows) scope.now text heap.old host.old) a heap.new host.new) }
    ensures there { IfOk result (λ a.
        AreThere heap.new (answered_names a (H.names.host host.new))) }
    ensures more { OnOk result (IsLater heap.old heap.new) }
{
    let answered = declare_functions(alloc, host, heap, names, text, scope.functions.as_slice())?;
    if let Answered::Throws(error) = answered {
        return Ok(Answered::Throws(error));
    }
    declare_variables(alloc, host, heap, scope.names.as_slice())?;
    Ok(Answered::Returns(Value::Undefined))
}

// Whether the objects of so many functions fit.
#[tactic(auto, using(crate::proofs::Counts::functions_over))]
fn functions_fit(heap: &Heap, count: usize) -> bool
    ensures { result ≡ room.objects_fit heap.now (objects_of_function * count) }
{
    count <= COUNT_LIMIT && objects_fit(heap, 2 * count)
}

// The scope of a program.
fn program_scope(script: &Script) -> &Scope
    requires { IsProgram script.now }
    ensures { result.now ≡ names_of.program_scope (program_in (root_tree script.now)) }
{
    let _nodes = script.count();
    match script.node(script.root()) {
        Node::Program { scope, .. } => scope,
        _ => unreachable!(),
    }
}

/// All that a program's statements declare, in the step that reads the text (10.4.1).
pub fn declare_program<H: Host>(
    alloc: Global,
    host: &mut H,
    heap: &mut Heap,
    names: &CallNames,
    script: &Script,
    text: u32,
) -> Result<Answered, NoMemory>
    requires program { IsProgram script.now }
    requires there { AreThere heap.old (H.names.host host.old) }
    ensures value { IfOk result (λ a. Gives (programs.declare_program (hosted H.rows)
        (window_handler H.rows) text (program_in (root_tree script.now)) heap.old host.old)
        a heap.new host.new) }
    ensures there { IfOk result (λ a.
        AreThere heap.new (answered_names a (H.names.host host.new))) }
    ensures more { OnOk result (IsLater heap.old heap.new) }
{
    let scope = program_scope(script);
    if !functions_fit(heap, scope.functions.len()) {
        return thrown(alloc, host, heap, ErrorName::RangeError);
    }
    declare_names(alloc, host, heap, names, scope, text)
}
