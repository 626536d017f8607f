// `this`, literals and function expressions.
ghost use Rattle.std.specs.Prelude.{◌≡◌, List, IfOk, OnOk, is_some, length, map};
ghost use Rattle.std.specs.Prelude.{Option};
ghost use Rattle.std.specs.Option.{option_map};
ghost use Rattle.js_value.specs.declared.value.Value.{Value as Held};
ghost use Rattle.js_heap.specs.Chains.{IsBelow};
ghost use Rattle.js_heap.specs.Scopes.{scope_number};
ghost use Rattle.js_host.specs.There.{AreThere};
ghost use Rattle.js_reference.specs.Later.{IsLater};
ghost use Rattle.js_term.specs.Evaluation.{Evaluation};
ghost use Rattle.js_term.specs.Place.Place.{At};
ghost use Rattle.js_tree.specs.Arena.{Arena};
ghost use Rattle.js_operands.specs.ExprMoves.{made_of, move_names, operand_names};
ghost use Rattle.js_control.specs.Literals as rows;
ghost use Rattle.js_operands.specs.Rows.{ExprRow as Row};
ghost use Rattle.js_operands.specs.Shapes.{IsShaped};
ghost use Rattle.js_operands.specs.declared.row.Phase.{Phase as PhaseKind};

use js_heap::{Code, Heap};
use js_host::Host;
use js_operands::{ExprMove, given};
use js_operations::{array_literal, object_literal};
use js_reference::{ErrorName, FunctionNames, make_function, objects_fit, thrown};
use js_term::{Context, Operands};
use js_tree::{Entry, NodeId};
use js_value::Value;
use mug_text::NoMemory;
use std::alloc::Global;

/// `this` (ECMA-262 edition 5.1, 11.1.1).
pub(crate) fn this(at: &Context) -> Result<ExprMove, NoMemory>
    ensures value { IfOk result (λ m. m ≡ ExprMove.Value at.now.this) }
    ensures shape { (n : Option PhaseKind) (e f : Evaluation) → IfOk result (λ m.
        IsShaped n e f m) }
{
    Ok(ExprMove::Value(at.this.copy()?))
}

/// A function expression, which begins at a unit of the text, in the scope where it stands (13).
pub(crate) fn function<H: Host>(
    alloc: Global,
    names: &FunctionNames,
    text: u32,
    unit: u32,
    at: &Context,
    heap: &mut Heap,
    host: &H,
) -> Result<ExprMove, NoMemory>
    requires { IsBelow (length heap.old.scopes) (option_map scope_number at.now.scope) }
    ensures value { (a : Arena) (r : Row) (e : Evaluation) → IfOk result (λ m.
        rows.function_row (At text unit) at.now heap.old host.now
        ≡ made_of a r e m heap.new host.now) }
    ensures there { (vs : List Held) → AreThere heap.old vs
        → IfOk result (λ m. AreThere heap.new (move_names m vs)) }
    ensures more { OnOk result (IsLater heap.old heap.new) }
    ensures shape { (n : Option PhaseKind) (e f : Evaluation) → IfOk result (λ m.
        IsShaped n e f m) }
{
    if !objects_fit(heap, 2) {
        let answered = thrown(alloc, host, heap, ErrorName::RangeError)?;
        return Ok(given::<H>(answered));
    }
    let code = Code {
        text,
        node: unit,
        scope: at.scope,
    };
    let function = make_function(heap, names, code)?;
    Ok(ExprMove::Value(Value::Ref(function)))
}

/// An array literal (11.1.4).
pub(crate) fn array<H: Host>(
    alloc: Global,
    elements: &[Option<NodeId>],
    operands: &Operands,
    heap: &mut Heap,
    host: &H,
) -> Result<ExprMove, NoMemory>
    requires { AreThere heap.old (operand_names operands.now (H.names.host host.now)) }
    ensures value { (a : Arena) (r : Row) → IfOk result (λ m. rows.array_row heap.old host.now
        (map is_some elements.now) operands.now.done
        ≡ made_of a r operands.now m heap.new host.now) }
    ensures there { IfOk result (λ m.
        AreThere heap.new (move_names m (operand_names operands.now (H.names.host host.now)))) }
    ensures more { OnOk result (IsLater heap.old heap.new) }
    ensures shape { (n : Option PhaseKind) (e f : Evaluation) → IfOk result (λ m.
        IsShaped n e f m) }
{
    let values = operands.values(alloc)?;
    let answered = array_literal(alloc, host, heap, elements, values.as_slice())?;
    Ok(given::<H>(answered))
}

/// An object literal (11.1.5).
pub(crate) fn object<H: Host>(
    alloc: Global,
    entries: &[Entry],
    operands: &Operands,
    heap: &mut Heap,
    host: &H,
) -> Result<ExprMove, NoMemory>
    requires { AreThere heap.old (operand_names operands.now (H.names.host host.now)) }
    ensures value { (a : Arena) (r : Row) → IfOk result (λ m. rows.object_row heap.old host.now
        (map (λ e. e.key) entries.now) operands.now.done
        ≡ made_of a r operands.now m heap.new host.now) }
    ensures there { IfOk result (λ m.
        AreThere heap.new (move_names m (operand_names operands.now (H.names.host host.now)))) }
    ensures more { OnOk result (IsLater heap.old heap.new) }
    ensures shape { (n : Option PhaseKind) (e f : Evaluation) → IfOk result (λ m.
        IsShaped n e f m) }
{
    let values = operands.values(alloc)?;
    let answered = object_literal(alloc, host, heap, entries, values.as_slice())?;
    Ok(given::<H>(answered))
}
