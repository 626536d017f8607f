// Operators in front of an operand and between two.
ghost use Rattle.std.specs.Prelude.{◌≡◌, [], None, IfOk, OnOk, length};
ghost use Rattle.std.specs.Prelude.{Option};
ghost use Rattle.std.specs.Option.{option_map};
ghost use Rattle.js_heap.specs.Chains.{IsBelow};
ghost use Rattle.js_heap.specs.Scopes.{scope_number};
ghost use Rattle.js_host.specs.There.{AreThere};
ghost use Rattle.js_operations.specs.Unary as unary_operators;
ghost use Rattle.js_reference.specs.Hosted.{hosted};
ghost use Rattle.js_reference.specs.Later.{IsLater};
ghost use Rattle.js_tree.specs.Arena.{Arena};
ghost use Rattle.js_operands.specs.Conversions as conversions;
ghost use Rattle.js_operands.specs.ExprMoves.{made_of, move_names, operand_names};
ghost use Rattle.js_control.specs.Operators as rows;
ghost use Rattle.js_operands.specs.Prepared.{HasReached, reached_names};
ghost use Rattle.js_operands.specs.Rows.{ExprRow as Row};
ghost use Rattle.js_operands.specs.Steps.{operand_at};
ghost use Rattle.js_operands.specs.Shapes.{IsReachedSo, IsShaped};
ghost use Rattle.js_operands.specs.declared.row.Phase.{Phase as PhaseKind};
ghost use Rattle.js_term.specs.Evaluation.{Evaluation};

use crate::operated::operated;
use js_heap::Heap;
use js_host::Host;
use js_operands::{ExprMove, Reached, Wants, given, operand, prepared};
use js_operations::{type_of_option, unary_operate, unary_wants};
use js_reference::name_value;
use js_term::{Context, Operands};
use js_tree::{BinaryOperator, UnaryOperator};
use js_value::Value;
use mug_text::{JText, NoMemory};
use std::alloc::Global;

/// `typeof x` (ECMA-262 edition 5.1, 11.4.3).
pub(crate) fn type_of_name<H: Host>(
    alloc: Global,
    name: &JText,
    at: &Context,
    operands: &Operands,
    heap: &Heap,
    host: &H,
) -> Result<ExprMove, NoMemory>
    requires there { AreThere heap.now (operand_names operands.now (H.names.host host.now)) }
    requires scope { IsBelow (length heap.now.scopes) (option_map scope_number at.now.scope) }
    ensures value { (a : Arena) (r : Row) → IfOk result (λ m.
        rows.type_of_name_row (hosted H.rows) at.now heap.now host.now name.now
        ≡ made_of a r operands.now m heap.now host.now) }
    ensures there { IfOk result (λ m.
        AreThere heap.now (move_names m (operand_names operands.now (H.names.host host.now)))) }
    ensures shape { (n : Option PhaseKind) (e f : Evaluation) → IfOk result (λ m.
        IsShaped n e f m) }
{
    let _operands = operands;
    let value = name_value(host, heap, at.scope, name)?;
    Ok(ExprMove::Value(type_of_option(alloc, heap, value.as_ref())?))
}

// An operator's answer, behind the conversion of its one operand.
fn operated_alone<H: Host>(
    alloc: Global,
    operator: UnaryOperator,
    operands: &mut Operands,
    heap: &mut Heap,
    host: &H,
) -> Result<Reached, NoMemory>
    requires there { AreThere heap.old (operand_names operands.old (H.names.host host.now)) }
    requires coming { operands.old.todo ≡ [] }
    ensures value { IfOk result (λ x. let vs = operands.old.done in
        HasReached (λ r made. conversions.prepared (hosted H.rows) heap.old host.now r
        (conversions.wants_at 0 (unary_operators.unary_wants operator 0) None) vs made)
        (unary_operators.unary_operate heap.old host.now operator (operand_at vs 0))
        operands.old operands.new heap.new host.now x) }
    ensures there { IfOk result (λ x.
        AreThere heap.new (reached_names x (operand_names operands.new (H.names.host host.now)))) }
    ensures more { OnOk result (IsLater heap.old heap.new) }
    ensures shape { (n : Option PhaseKind) → IfOk result (λ x.
        IsReachedSo n operands.old operands.new x) }
{
    let wants = Wants::At(0, unary_wants(operator), None);
    if let Some(moved) = prepared(alloc, wants, None, operands, heap, host)? {
        return Ok(Reached::Moves(moved));
    }
    let undefined = Value::Undefined;
    let answered = unary_operate(
        alloc,
        host,
        heap,
        operator,
        operand(operands, 0, &undefined),
    )?;
    Ok(Reached::Gives(answered))
}

/// An operator in front of its operand (11.4).
pub(crate) fn unary<H: Host>(
    alloc: Global,
    operator: UnaryOperator,
    operands: &mut Operands,
    heap: &mut Heap,
    host: &H,
) -> Result<ExprMove, NoMemory>
    requires there { AreThere heap.old (operand_names operands.old (H.names.host host.now)) }
    requires coming { operands.old.todo ≡ [] }
    ensures value { (a : Arena) → IfOk result (λ m. rows.unary_row (hosted H.rows) heap.old
        host.now operator operands.old.done
        ≡ made_of a (Row.Unary operator) operands.new m heap.new host.now) }
    ensures there { IfOk result (λ m.
        AreThere heap.new (move_names m (operand_names operands.new (H.names.host host.now)))) }
    ensures more { OnOk result (IsLater heap.old heap.new) }
    ensures shape { (n : Option PhaseKind) → IfOk result (λ m.
        IsShaped n operands.old operands.new m) }
{
    match operated_alone(alloc, operator, operands, heap, host)? {
        Reached::Moves(moved) => Ok(moved),
        Reached::Gives(answered) => Ok(given::<H>(answered)),
    }
}

/// An operator between two operands (11.5 to 11.10).
pub(crate) fn binary<H: Host>(
    alloc: Global,
    operator: BinaryOperator,
    operands: &mut Operands,
    heap: &mut Heap,
    host: &H,
) -> Result<ExprMove, NoMemory>
    requires there { AreThere heap.old (operand_names operands.old (H.names.host host.now)) }
    requires coming { operands.old.todo ≡ [] }
    ensures value { (a : Arena) → IfOk result (λ m. rows.binary_row (hosted H.rows) heap.old
        host.now operator operands.old.done
        ≡ made_of a (Row.Binary operator) operands.new m heap.new host.now) }
    ensures there { IfOk result (λ m.
        AreThere heap.new (move_names m (operand_names operands.new (H.names.host host.now)))) }
    ensures more { OnOk result (IsLater heap.old heap.new) }
    ensures shape { (n : Option PhaseKind) → IfOk result (λ m.
        IsShaped n operands.old operands.new m) }
{
    match operated(alloc, operator, 0, operands, heap, host)? {
        Reached::Moves(moved) => Ok(moved),
        Reached::Gives(answered) => Ok(given::<H>(answered)),
    }
}
