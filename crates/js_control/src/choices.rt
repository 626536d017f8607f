// `&&`, `||`, `?:` and the comma: the first operand stays, or the next part stands in its place.
ghost use Rattle.std.specs.Prelude.{◌≡◌, List, IfOk};
ghost use Rattle.std.specs.Prelude.{Option};
ghost use Rattle.js_heap.specs.World.{World};
ghost use Rattle.js_host.specs.There.{AreThere};
ghost use Rattle.js_term.specs.Evaluation.{Evaluation};
ghost use Rattle.js_tree.specs.Arena.{Arena};
ghost use Rattle.js_tree.specs.TreeAt.{tree_at};
ghost use Rattle.js_value.specs.Image.{to_boolean};
ghost use Rattle.js_value.specs.declared.value.Value.{Value as Held};
ghost use Rattle.js_control.specs.Choices as rows;
ghost use Rattle.js_operands.specs.ExprMoves.{made_of, move_names, operand_names};
ghost use Rattle.js_operands.specs.Rows.{ExprRow as Row};
ghost use Rattle.js_operands.specs.Steps.{operand_at};
ghost use Rattle.js_operands.specs.Shapes.{IsShaped};
ghost use Rattle.js_operands.specs.declared.row.Phase.{Phase as PhaseKind};

use js_host::Host;
use js_operands::{ExprMove, operand};
use js_term::Operands;
use js_tree::NodeId;
use js_value::Value;
use mug_text::NoMemory;

// Whether the first operand is true.
fn is_true(operands: &Operands) -> bool
    ensures { result ≡ to_boolean (operand_at operands.now.done 0) }
{
    let undefined = Value::Undefined;
    operand(operands, 0, &undefined).to_boolean()
}

// The first operand is the node's value.
fn first<H: Host>(operands: &Operands) -> Result<ExprMove, NoMemory>
    ensures value { IfOk result (λ m. m ≡ ExprMove.Value (operand_at operands.now.done 0)) }
    ensures there { (w : World) (vs : List Held) → AreThere w (operand_names operands.now vs)
        → IfOk result (λ m. AreThere w (move_names m (operand_names operands.now vs))) }
    ensures shape { (n : Option PhaseKind) (e f : Evaluation) → IfOk result (λ m.
        IsShaped n e f m) }
{
    let undefined = Value::Undefined;
    let value = operand(operands, 0, &undefined).copy()?;
    Ok(ExprMove::Value(value))
}

/// `a && b` (ECMA-262 edition 5.1, 11.11).
pub(crate) fn and<H: Host>(right: NodeId, operands: &Operands) -> Result<ExprMove, NoMemory>
    ensures value { (a : Arena) (r : Row) (w : World) (h : H) → IfOk result (λ m.
        rows.and_row w h (tree_at a right) operands.now.done ≡ made_of a r operands.now m w h) }
    ensures there { (w : World) (vs : List Held) → AreThere w (operand_names operands.now vs)
        → IfOk result (λ m. AreThere w (move_names m (operand_names operands.now vs))) }
    ensures shape { (n : Option PhaseKind) (e f : Evaluation) → IfOk result (λ m.
        IsShaped n e f m) }
{
    if is_true(operands) {
        return Ok(ExprMove::Becomes(right));
    }
    first::<H>(operands)
}

/// `a || b` (11.11).
pub(crate) fn or<H: Host>(right: NodeId, operands: &Operands) -> Result<ExprMove, NoMemory>
    ensures value { (a : Arena) (r : Row) (w : World) (h : H) → IfOk result (λ m.
        rows.or_row w h (tree_at a right) operands.now.done ≡ made_of a r operands.now m w h) }
    ensures there { (w : World) (vs : List Held) → AreThere w (operand_names operands.now vs)
        → IfOk result (λ m. AreThere w (move_names m (operand_names operands.now vs))) }
    ensures shape { (n : Option PhaseKind) (e f : Evaluation) → IfOk result (λ m.
        IsShaped n e f m) }
{
    if is_true(operands) {
        return first::<H>(operands);
    }
    Ok(ExprMove::Becomes(right))
}

/// `a ? b : c` (11.12).
pub(crate) fn conditional<H: Host>(
    chosen: NodeId,
    otherwise: NodeId,
    operands: &Operands,
) -> Result<ExprMove, NoMemory>
    ensures value { (a : Arena) (r : Row) (w : World) (h : H) → IfOk result (λ m.
        rows.conditional_row w h (tree_at a chosen) (tree_at a otherwise) operands.now.done
        ≡ made_of a r operands.now m w h) }
    ensures there { (w : World) (vs : List Held) → AreThere w (operand_names operands.now vs)
        → IfOk result (λ m. AreThere w (move_names m (operand_names operands.now vs))) }
    ensures shape { (n : Option PhaseKind) (e f : Evaluation) → IfOk result (λ m.
        IsShaped n e f m) }
{
    if is_true(operands) {
        return Ok(ExprMove::Becomes(chosen));
    }
    Ok(ExprMove::Becomes(otherwise))
}

/// `a, b` (11.14).
pub(crate) fn comma<H: Host>(right: NodeId) -> ExprMove
    ensures value { (a : Arena) (r : Row) (e : Evaluation) (w : World) (h : H) →
        rows.comma_row w h (tree_at a right) ≡ made_of a r e result w h }
    ensures names { (vs : List Held) → move_names result vs ≡ vs }
    ensures shape { (n : Option PhaseKind) (e f : Evaluation) → IsShaped n e f result }
{
    ExprMove::Becomes(right)
}
