// What the answer of an operation makes of a node.
ghost use Rattle.std.specs.Prelude.{◌≡◌, ◌++◌, ◌∷◌, [], List, IfOk, OnOk, map, take};
ghost use Rattle.std.specs.Prelude.{Option, Some};
ghost use Rattle.js_value.specs.declared.value.Value.{Value as Held};
ghost use Rattle.js_heap.specs.World.{World};
ghost use Rattle.js_host.specs.There.{AreThere};
ghost use Rattle.js_reference.specs.Answers.{answer, answered_names};
ghost use Rattle.js_reference.specs.Later.{IsLater};
ghost use Rattle.js_term.specs.Evaluation.{Evaluation};
ghost use Rattle.js_tree.specs.Arena.{Arena};
ghost use Rattle.js_tree.specs.TreeAt.{tree_at};
ghost use Rattle.js_operands.specs.Steps.{call_node};
ghost use Rattle.js_operands.specs.ExprMoves.{later_row, made_of, move_names, operand_names};
ghost use Rattle.js_operands.specs.Rows.{ExprRow as Row};
ghost use Rattle.js_operands.specs.Steps.{gives, goes_on, operand_at, throws, with_value};
ghost use Rattle.js_reference.specs.declared.error.ErrorName.TheVariants.{TypeError};
ghost use Rattle.js_operands.specs.Shapes.{IsShaped};
ghost use Rattle.js_operands.specs.declared.row.Phase.{Phase as PhaseKind};

use crate::values::{add_nodes, add_value, first_values, operand};
use crate::{ExprMove, Phase};
use js_heap::Heap;
use js_host::Host;
use js_reference::{Answered, ErrorName, thrown};
use js_term::{Operand, Operands};
use js_tree::NodeId;
use js_value::Value;
use mug_text::NoMemory;
use std::alloc::Global;

/// The value stands in the node's place, or the throw does.
pub fn given<H: Host>(answered: Answered) -> ExprMove
    ensures made { (a : Arena) (r : Row) (e : Evaluation) (w : World) (h : H) →
        gives (answer answered w h) ≡ made_of a r e result w h }
    ensures names { (vs : List Held) → move_names result vs ≡ answered_names answered vs }
    ensures shape { (n : Option PhaseKind) (e f : Evaluation) → IsShaped n e f result }
{
    match answered {
        Answered::Returns(value) => ExprMove::Value(value),
        Answered::Throws(error) => ExprMove::Throws(error),
    }
}

/// A TypeError is thrown in the node's place.
pub fn type_error<H: Host>(
    alloc: Global,
    operands: &Operands,
    heap: &mut Heap,
    host: &H,
) -> Result<ExprMove, NoMemory>
    requires { AreThere heap.old (operand_names operands.now (H.names.host host.now)) }
    ensures value { (a : Arena) (r : Row) (e : Evaluation) → IfOk result (λ m.
        throws TypeError heap.old host.now ≡ made_of a r e m heap.new host.now) }
    ensures there { IfOk result (λ m.
        AreThere heap.new (move_names m (operand_names operands.now (H.names.host host.now)))) }
    ensures more { OnOk result (IsLater heap.old heap.new) }
    ensures shape { (n : Option PhaseKind) (e f : Evaluation) → IfOk result (λ m.
        IsShaped n e f m) }
{
    let answered = thrown(alloc, host, heap, ErrorName::TypeError)?;
    Ok(given::<H>(answered))
}

/// The target of `++` or `--` is read: with its value the node goes on, or the throw stands in its
/// place.
pub fn read_target<H: Host>(
    operands: &mut Operands,
    answered: Answered,
    phase: Phase,
) -> Result<ExprMove, NoMemory>
    requires { operands.old.todo ≡ [] }
    ensures value { (a : Arena) (r : Row) (w : World) (h : H) → IfOk result (λ m.
        goes_on (with_value (later_row r phase) operands.old.done []) (answer answered w h)
        ≡ made_of a r operands.new m w h) }
    ensures there { (w : World) (vs : List Held)
        → AreThere w (answered_names answered (operand_names operands.old vs))
        → IfOk result (λ m. AreThere w (move_names m (operand_names operands.new vs))) }
    ensures shape { IfOk result (λ m. IsShaped (Some phase) operands.old operands.new m) }
{
    match answered {
        Answered::Returns(value) => {
            add_value(operands, value)?;
            Ok(ExprMove::GoesOn(phase))
        }
        Answered::Throws(error) => Ok(ExprMove::Throws(error)),
    }
}

/// The target of `op=` is read, before its right side is evaluated.
pub fn read_before<H: Host>(
    operands: &mut Operands,
    answered: Answered,
    right: NodeId,
) -> Result<ExprMove, NoMemory>
    requires { operands.old.todo ≡ [] }
    ensures value { (a : Arena) (r : Row) (w : World) (h : H) → IfOk result (λ m.
        goes_on (with_value (later_row r Phase.Compute) operands.old.done (tree_at a right ∷ []))
        (answer answered w h) ≡ made_of a r operands.new m w h) }
    ensures there { (w : World) (vs : List Held)
        → AreThere w (answered_names answered (operand_names operands.old vs))
        → IfOk result (λ m. AreThere w (move_names m (operand_names operands.new vs))) }
    ensures shape { IfOk result (λ m. IsShaped (Some Phase.Compute) operands.old operands.new m) }
{
    match answered {
        Answered::Returns(value) => {
            add_value(operands, value)?;
            operands.push(Operand::Node(right))?;
            Ok(ExprMove::GoesOn(Phase::Compute))
        }
        Answered::Throws(error) => Ok(ExprMove::Throws(error)),
    }
}

/// The operator of `op=` has given what is written to its target, which has so many operands.
pub fn assign_next<H: Host>(
    alloc: Global,
    operands: &mut Operands,
    count: usize,
    answered: Answered,
) -> Result<ExprMove, NoMemory>
    requires { operands.old.todo ≡ [] }
    ensures value { (a : Arena) (r : Row) (w : World) (h : H) → IfOk result (λ m.
        goes_on (with_value (later_row r Phase.Assign) (take count operands.old.done) [])
        (answer answered w h) ≡ made_of a r operands.new m w h) }
    ensures there { (w : World) (vs : List Held)
        → AreThere w (answered_names answered (operand_names operands.old vs))
        → IfOk result (λ m. AreThere w (move_names m (operand_names operands.new vs))) }
    ensures shape { IfOk result (λ m. IsShaped (Some Phase.Assign) operands.old operands.new m) }
{
    match answered {
        Answered::Returns(value) => {
            *operands = first_values(alloc, operands, count)?;
            add_value(operands, value)?;
            Ok(ExprMove::GoesOn(Phase::Assign))
        }
        Answered::Throws(error) => Ok(ExprMove::Throws(error)),
    }
}

// A callee and its `this`.
fn callee_on(alloc: Global, callee: Value, this: Value) -> Result<Operands, NoMemory>
    ensures { IfOk result (λ e. e ≡ record { done = callee ∷ this ∷ []; todo = [] }) }
{
    let mut operands = Operands::new(alloc);
    add_value(&mut operands, callee)?;
    add_value(&mut operands, this)?;
    Ok(operands)
}

/// The callee of a call is read: it is called on its base, which is the first operand.
pub fn call_on_base<H: Host>(
    alloc: Global,
    operands: &mut Operands,
    answered: Answered,
    arguments: &[NodeId],
) -> Result<ExprMove, NoMemory>
    requires { operands.old.todo ≡ [] }
    ensures value { (a : Arena) (r : Row) (w : World) (h : H) → IfOk result (λ m.
        goes_on (call_node (map (tree_at a) arguments.now) (operand_at operands.old.done 0))
        (answer answered w h) ≡ made_of a r operands.new m w h) }
    ensures there { (w : World) (vs : List Held)
        → AreThere w (answered_names answered (operand_names operands.old vs))
        → IfOk result (λ m. AreThere w (move_names m (operand_names operands.new vs))) }
    ensures shape { IfOk result (λ m. IsShaped (Some Phase.CallOn) operands.old operands.new m) }
{
    let undefined = Value::Undefined;
    match answered {
        Answered::Returns(callee) => {
            let base = operand(operands, 0, &undefined).copy()?;
            *operands = callee_on(alloc, callee, base)?;
            add_nodes(operands, arguments)?;
            Ok(ExprMove::GoesOn(Phase::CallOn))
        }
        Answered::Throws(error) => Ok(ExprMove::Throws(error)),
    }
}
