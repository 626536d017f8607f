// Operators between two operands.
ghost use Rattle.std.specs.Prelude.{◌≡◌, ◌<◌, [], suc, IfOk, OnOk};
ghost use Rattle.std.specs.Prelude.{Option};
ghost use Rattle.js_host.specs.Natives as natives;
ghost use Rattle.js_host.specs.There.{AreThere};
ghost use Rattle.js_operations.specs.Operations as operations;
ghost use Rattle.js_reference.specs.Hosted.{hosted};
ghost use Rattle.js_reference.specs.Later.{IsLater};
ghost use Rattle.js_operands.specs.Conversions as conversions;
ghost use Rattle.js_operands.specs.ExprMoves.{operand_names};
ghost use Rattle.js_control.specs.Operators.{operator_wants};
ghost use Rattle.js_operands.specs.Prepared.{HasReached, reached_names};
ghost use Rattle.js_operands.specs.Steps.{operand_at};
ghost use Rattle.js_operands.specs.Shapes.{IsReachedSo};
ghost use Rattle.js_operands.specs.declared.row.Phase.{Phase as PhaseKind};

use js_heap::Heap;
use js_host::Host;
use js_operands::{Reached, Wants, operand, prepared};
use js_operations::{Operation, operate, operation_wants};
use js_term::Operands;
use js_tree::BinaryOperator;
use js_value::Value;
use mug_text::NoMemory;
use std::alloc::Global;

// By which hints the operator's operands are converted, of which the left one stands at a place.
fn operator_hints(operator: BinaryOperator, place: usize, operands: &Operands) -> Wants
    requires { place < 4 }
    ensures { let vs = operands.now.done in conversions.hints natives.wants result
        ≡ operator_wants place operator (operand_at vs place) (operand_at vs (suc place)) }
{
    let undefined = Value::Undefined;
    let left = operand(operands, place, &undefined);
    let right = operand(operands, place + 1, &undefined);
    let hints = operation_wants(Operation::of(operator), left, right);
    Wants::At(place, hints.left, hints.right)
}

/// An operator's answer, behind the conversions of its operands, the left one first: the left one
/// stands at a place.
pub(crate) fn operated<H: Host>(
    alloc: Global,
    operator: BinaryOperator,
    place: usize,
    operands: &mut Operands,
    heap: &mut Heap,
    host: &H,
) -> Result<Reached, NoMemory>
    requires there { AreThere heap.old (operand_names operands.old (H.names.host host.now)) }
    requires coming { operands.old.todo ≡ [] }
    requires place { place < 4 }
    ensures value { IfOk result (λ x. let vs = operands.old.done in
        let a = operand_at vs place in let b = operand_at vs (suc place) in
        HasReached (λ r made. conversions.prepared (hosted H.rows) heap.old host.now r
        (operator_wants place operator a b) vs made)
        (operations.operate (hosted H.rows) heap.old host.now (operations.operation operator) a b)
        operands.old operands.new heap.new host.now x) }
    ensures there { IfOk result (λ x.
        AreThere heap.new (reached_names x (operand_names operands.new (H.names.host host.now)))) }
    ensures more { OnOk result (IsLater heap.old heap.new) }
    ensures shape { (n : Option PhaseKind) → IfOk result (λ x.
        IsReachedSo n operands.old operands.new x) }
{
    let wants = operator_hints(operator, place, operands);
    if let Some(moved) = prepared(alloc, wants, None, operands, heap, host)? {
        return Ok(Reached::Moves(moved));
    }
    let undefined = Value::Undefined;
    let left = operand(operands, place, &undefined);
    let right = operand(operands, place + 1, &undefined);
    let answered = operate(alloc, host, heap, Operation::of(operator), left, right)?;
    Ok(Reached::Gives(answered))
}
