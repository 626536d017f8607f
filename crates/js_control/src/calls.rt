// Calls and `new`.
ghost use Rattle.std.specs.Prelude.{◌≡◌, ◌++◌, [], IfOk, OnOk, drop, map, slice_get};
ghost use Rattle.std.specs.Prelude.{Option, Some};
ghost use Rattle.js_value.specs.declared.value.Value.TheVariants.{Ref};
ghost use Rattle.js_heap.specs.Closed.{IsThere};
ghost use Rattle.js_host.specs.Names.{option_names};
ghost use Rattle.js_host.specs.There.{AreThere};
ghost use Rattle.js_reference.specs.Hosted.{hosted};
ghost use Rattle.js_reference.specs.Later.{IsLater};
ghost use Rattle.js_reference.specs.Puts as puts;
ghost use Rattle.js_tree.specs.Arena.{Arena};
ghost use Rattle.js_tree.specs.TreeAt.{tree_at};
ghost use Rattle.js_control.specs.Calls as rows;
ghost use Rattle.js_operands.specs.ExprMoves.{made_of, move_names, operand_names};
ghost use Rattle.js_operands.specs.Hosted.{facts};
ghost use Rattle.js_operands.specs.Rows.{ExprRow as Row};
ghost use Rattle.js_operands.specs.Steps.{operand_at};
ghost use Rattle.js_operands.specs.Shapes.{IsShaped};
ghost use Rattle.js_operands.specs.declared.row.Phase.{Phase as PhaseKind};

use js_heap::{Heap, Root};
use js_host::{Host, NativeCall};
use js_operands::{
    ExprMove, Phase, Reached, Wants, add_value, add_values, call_on_base, first_values, operand,
    prepared, read_base, read_keyed,
};
use js_reference::native_of;
use js_term::Operands;
use js_tree::NodeId;
use js_value::Value;
use mug_text::{JText, Listed, NoMemory};
use std::alloc::Global;

// Puts a copy of the value at a place, where it is there, behind these.
fn push_copy(values: &mut Listed<Value>, operands: &Operands, place: usize) -> Result<(), NoMemory>
    ensures { OnOk result (values.new
        ≡ values.old ++ option_names (slice_get operands.now.done place) []) }
{
    match operands.value(place) {
        Some(value) => values.push(value.copy()?),
        None => Ok(()),
    }
}

// Copies of the values from a place on.
fn values_from(alloc: Global, operands: &Operands, from: usize) -> Result<Listed<Value>, NoMemory>
    ensures { IfOk result (λ vs. vs ≡ drop from operands.now.done) }
{
    let mut values = Listed::new(alloc);
    for place in from..operands.value_count() {
        push_copy(&mut values, operands, place)?;
    }
    Ok(values)
}

// The call of the first operand on the second.
fn request(alloc: Global, operands: &Operands) -> Result<ExprMove, NoMemory>
    ensures { IfOk result (λ m. m ≡ ExprMove.Calls (operand_at operands.now.done 0)
        (rows.call_with (operand_at operands.now.done 1) (drop 2 operands.now.done))) }
{
    let undefined = Value::Undefined;
    Ok(ExprMove::Calls {
        f: operand(operands, 0, &undefined).copy()?,
        call: NativeCall {
            construct: false,
            this: operand(operands, 1, &undefined).copy()?,
            args: values_from(alloc, operands, 2)?,
        },
    })
}

// The `new` of the first operand.
fn new_request(alloc: Global, operands: &Operands) -> Result<ExprMove, NoMemory>
    ensures { IfOk result (λ m. m ≡ ExprMove.Calls (operand_at operands.now.done 0)
        (rows.new_with (drop 1 operands.now.done))) }
{
    let undefined = Value::Undefined;
    Ok(ExprMove::Calls {
        f: operand(operands, 0, &undefined).copy()?,
        call: NativeCall {
            construct: true,
            this: Value::Undefined,
            args: values_from(alloc, operands, 1)?,
        },
    })
}

/// A call whose callee and `this` are known (ECMA-262 edition 5.1, 11.2.3).
pub(crate) fn call_on<H: Host>(
    alloc: Global,
    operands: &mut Operands,
    heap: &mut Heap,
    host: &H,
) -> Result<ExprMove, NoMemory>
    requires there { AreThere heap.old (operand_names operands.old (H.names.host host.now)) }
    requires coming { operands.old.todo ≡ [] }
    ensures value { (a : Arena) → IfOk result (λ m. rows.call_on_row (facts H.rows) heap.old
        host.now operands.old.done ≡ made_of a Row.CallOn operands.new m heap.new host.now) }
    ensures there { IfOk result (λ m.
        AreThere heap.new (move_names m (operand_names operands.new (H.names.host host.now)))) }
    ensures more { OnOk result (IsLater heap.old heap.new) }
    ensures shape { (n : Option PhaseKind) → IfOk result (λ m.
        IsShaped n operands.old operands.new m) }
{
    let undefined = Value::Undefined;
    let wants = Wants::Call(native_of(heap, operand(operands, 0, &undefined)));
    match prepared(alloc, wants, None, operands, heap, host)? {
        Some(moved) => Ok(moved),
        None => request(alloc, operands),
    }
}

// The callee, the window as its `this`, and the arguments.
#[tactic(auto, using(crate::proofs::Windows::window_on, crate::proofs::Windows::none_on))]
fn on_window(alloc: Global, heap: &Heap, operands: &Operands) -> Result<Operands, NoMemory>
    ensures value { IfOk result (λ e.
        e ≡ record { done = rows.on_window operands.now.done; todo = [] }) }
    ensures window { IsThere heap.now (Ref puts.window) }
{
    let window = heap.root(Root::Window);
    let mut on = first_values(alloc, operands, 1)?;
    if operands.value_count() == 0 {
        return Ok(on);
    }
    add_value(&mut on, Value::Ref(window))?;
    add_values(&mut on, operands, 1)?;
    Ok(on)
}

/// A call whose callee is no member, on the window (11.2.3).
pub(crate) fn call<H: Host>(
    alloc: Global,
    operands: &mut Operands,
    heap: &mut Heap,
    host: &H,
) -> Result<ExprMove, NoMemory>
    requires there { AreThere heap.old (operand_names operands.old (H.names.host host.now)) }
    requires coming { operands.old.todo ≡ [] }
    ensures value { (a : Arena) → IfOk result (λ m. rows.call_row (facts H.rows) heap.old
        host.now operands.old.done ≡ made_of a Row.Call operands.new m heap.new host.now) }
    ensures there { IfOk result (λ m.
        AreThere heap.new (move_names m (operand_names operands.new (H.names.host host.now)))) }
    ensures more { OnOk result (IsLater heap.old heap.new) }
    ensures shape { IfOk result (λ m. IsShaped (Some Phase.CallOn) operands.old operands.new m) }
{
    let undefined = Value::Undefined;
    let mut on = on_window(alloc, heap, operands)?;
    let wants = Wants::Call(native_of(heap, operand(&on, 0, &undefined)));
    match prepared(alloc, wants, Some(Phase::CallOn), &mut on, heap, host)? {
        Some(moved) => {
            *operands = on;
            Ok(moved)
        }
        None => request(alloc, &on),
    }
}

/// `new` (11.2.2).
pub(crate) fn new_object<H: Host>(
    alloc: Global,
    operands: &mut Operands,
    heap: &mut Heap,
    host: &H,
) -> Result<ExprMove, NoMemory>
    requires there { AreThere heap.old (operand_names operands.old (H.names.host host.now)) }
    requires coming { operands.old.todo ≡ [] }
    ensures value { (a : Arena) → IfOk result (λ m. rows.new_row (facts H.rows) heap.old
        host.now operands.old.done ≡ made_of a Row.New operands.new m heap.new host.now) }
    ensures there { IfOk result (λ m.
        AreThere heap.new (move_names m (operand_names operands.new (H.names.host host.now)))) }
    ensures more { OnOk result (IsLater heap.old heap.new) }
    ensures shape { (n : Option PhaseKind) → IfOk result (λ m.
        IsShaped n operands.old operands.new m) }
{
    let undefined = Value::Undefined;
    let wants = Wants::New(native_of(heap, operand(operands, 0, &undefined)));
    match prepared(alloc, wants, None, operands, heap, host)? {
        Some(moved) => Ok(moved),
        None => new_request(alloc, operands),
    }
}

/// The step that reads the callee `e.k` of a call (11.2.3).
pub(crate) fn call_member<H: Host>(
    alloc: Global,
    key: &JText,
    arguments: &[NodeId],
    operands: &mut Operands,
    heap: &mut Heap,
    host: &H,
) -> Result<ExprMove, NoMemory>
    requires there { AreThere heap.old (operand_names operands.old (H.names.host host.now)) }
    requires coming { operands.old.todo ≡ [] }
    ensures value { (a : Arena) (r : Row) → IfOk result (λ m. rows.call_member_row (hosted H.rows)
        heap.old host.now key.now (map (tree_at a) arguments.now) operands.old.done
        ≡ made_of a r operands.new m heap.new host.now) }
    ensures there { IfOk result (λ m.
        AreThere heap.new (move_names m (operand_names operands.new (H.names.host host.now)))) }
    ensures more { OnOk result (IsLater heap.old heap.new) }
    ensures shape { IfOk result (λ m. IsShaped (Some Phase.CallOn) operands.old operands.new m) }
{
    let answered = read_base(alloc, operands, key, heap, host)?;
    call_on_base::<H>(alloc, operands, answered, arguments)
}

/// The step that reads the callee `e[k]` of a call (11.2.3).
pub(crate) fn call_index<H: Host>(
    alloc: Global,
    arguments: &[NodeId],
    operands: &mut Operands,
    heap: &mut Heap,
    host: &H,
) -> Result<ExprMove, NoMemory>
    requires there { AreThere heap.old (operand_names operands.old (H.names.host host.now)) }
    requires coming { operands.old.todo ≡ [] }
    ensures value { (a : Arena) → IfOk result (λ m. let xs = map (tree_at a) arguments.now in
        rows.call_index_row (hosted H.rows) heap.old host.now xs operands.old.done
        ≡ made_of a (Row.CallIndex xs) operands.new m heap.new host.now) }
    ensures there { IfOk result (λ m.
        AreThere heap.new (move_names m (operand_names operands.new (H.names.host host.now)))) }
    ensures more { OnOk result (IsLater heap.old heap.new) }
    ensures shape { IfOk result (λ m. IsShaped (Some Phase.CallOn) operands.old operands.new m) }
{
    match read_keyed(alloc, operands, heap, host)? {
        Reached::Moves(moved) => Ok(moved),
        Reached::Gives(answered) => call_on_base::<H>(alloc, operands, answered, arguments),
    }
}
