// Assignments.
ghost use Rattle.std.specs.Prelude.{◌≡◌, ◌<◌, true, [], IfOk, OnOk, length};
ghost use Rattle.std.specs.Prelude.{Option, Some};
ghost use Rattle.std.specs.Option.{option_map};
ghost use Rattle.js_heap.specs.Chains.{IsBelow};
ghost use Rattle.js_heap.specs.Scopes.{scope_number};
ghost use Rattle.js_host.specs.There.{AreThere};
ghost use Rattle.js_reference.specs.Hosted.{hosted};
ghost use Rattle.js_reference.specs.Later.{IsLater};
ghost use Rattle.js_tree.specs.Arena.{Arena};
ghost use Rattle.js_tree.specs.TreeAt.{tree_at};
ghost use Rattle.js_tree.specs.declared.production.BinaryOperator.{BinaryOperator as Operator};
ghost use Rattle.js_control.specs.Assignments as rows;
ghost use Rattle.js_operands.specs.ExprMoves.{early_made_of, later_row, made_of, move_names};
ghost use Rattle.js_operands.specs.ExprMoves.{operand_names};
ghost use Rattle.js_operands.specs.Rows.{ExprRow as Row};
ghost use Rattle.js_operands.specs.Shapes.{IsEarlySo, IsShaped};
ghost use Rattle.js_operands.specs.declared.row.Phase.{Phase as PhaseKind};
ghost use Rattle.js_term.specs.Evaluation.{Evaluation};

use crate::operated::operated;
use js_heap::Heap;
use js_host::Host;
use js_operands::{
    ExprMove, Phase, Reached, Wanted, assign_next, convert_again, given, is_missing, key_of,
    operand, read_base, read_before, read_keyed, read_variable, type_error, write_base,
    write_variable,
};
use js_ops::Hint;
use js_term::{Context, Operands};
use js_tree::{BinaryOperator, NodeId};
use js_value::Value;
use mug_text::{JText, NoMemory};
use std::alloc::Global;

/// `x = e` (ECMA-262 edition 5.1, 11.13.1).
pub(crate) fn assign_name<H: Host>(
    alloc: Global,
    name: &JText,
    at: &Context,
    operands: &Operands,
    heap: &mut Heap,
    host: &mut H,
) -> Result<ExprMove, NoMemory>
    requires there { AreThere heap.old (operand_names operands.now (H.names.host host.old)) }
    requires scope { IsBelow (length heap.old.scopes) (option_map scope_number at.now.scope) }
    ensures value { (a : Arena) (r : Row) → IfOk result (λ m. rows.assign_name_row (hosted H.rows)
        at.now heap.old host.old name.now operands.now.done
        ≡ made_of a r operands.now m heap.new host.new) }
    ensures there { IfOk result (λ m.
        AreThere heap.new (move_names m (operand_names operands.now (H.names.host host.new)))) }
    ensures more { OnOk result (IsLater heap.old heap.new) }
    ensures shape { (n : Option PhaseKind) (e f : Evaluation) → IfOk result (λ m.
        IsShaped n e f m) }
{
    let undefined = Value::Undefined;
    let value = operand(operands, 0, &undefined).copy()?;
    let answered = write_variable(alloc, operands, at.scope, name, value, heap, host)?;
    Ok(given::<H>(answered))
}

/// `e.k = e` (11.13.1).
pub(crate) fn assign_member<H: Host>(
    alloc: Global,
    key: &JText,
    operands: &Operands,
    heap: &mut Heap,
    host: &mut H,
) -> Result<ExprMove, NoMemory>
    requires { AreThere heap.old (operand_names operands.now (H.names.host host.old)) }
    ensures value { (a : Arena) (r : Row) → IfOk result (λ m. rows.assign_member_row
        (hosted H.rows) heap.old host.old key.now operands.now.done
        ≡ made_of a r operands.now m heap.new host.new) }
    ensures there { IfOk result (λ m.
        AreThere heap.new (move_names m (operand_names operands.now (H.names.host host.new)))) }
    ensures more { OnOk result (IsLater heap.old heap.new) }
    ensures shape { (n : Option PhaseKind) (e f : Evaluation) → IfOk result (λ m.
        IsShaped n e f m) }
{
    let undefined = Value::Undefined;
    let value = operand(operands, 1, &undefined).copy()?;
    let answered = write_base(alloc, operands, key, value, heap, host)?;
    Ok(given::<H>(answered))
}

/// `e[k] = e`, behind the conversion of the key (11.13.1).
pub(crate) fn assign_index<H: Host>(
    alloc: Global,
    operands: &Operands,
    heap: &mut Heap,
    host: &mut H,
) -> Result<ExprMove, NoMemory>
    requires { AreThere heap.old (operand_names operands.now (H.names.host host.old)) }
    ensures value { (a : Arena) (r : Row) → IfOk result (λ m. rows.assign_index_row
        (hosted H.rows) heap.old host.old operands.now.done
        ≡ made_of a r operands.now m heap.new host.new) }
    ensures there { IfOk result (λ m.
        AreThere heap.new (move_names m (operand_names operands.now (H.names.host host.new)))) }
    ensures more { OnOk result (IsLater heap.old heap.new) }
    ensures shape { (n : Option PhaseKind) (e f : Evaluation) → IfOk result (λ m.
        IsShaped n e f m) }
{
    let undefined = Value::Undefined;
    let key = key_of(alloc, operands)?;
    let value = operand(operands, 2, &undefined).copy()?;
    let answered = write_base(alloc, operands, &key, value, heap, host)?;
    Ok(given::<H>(answered))
}

/// `x op= e`: the step that reads (11.13.2).
pub(crate) fn revise_name<H: Host>(
    alloc: Global,
    name: &JText,
    right: NodeId,
    at: &Context,
    operands: &mut Operands,
    heap: &mut Heap,
    host: &H,
) -> Result<ExprMove, NoMemory>
    requires there { AreThere heap.old (operand_names operands.old (H.names.host host.now)) }
    requires coming { operands.old.todo ≡ [] }
    requires scope { IsBelow (length heap.old.scopes) (option_map scope_number at.now.scope) }
    ensures value { (a : Arena) (o : Operator) → IfOk result (λ m. let e = tree_at a right in
        rows.revise_name_row (hosted H.rows) at.now heap.old host.now o name.now e
        operands.old.done ≡ made_of a (Row.ReviseName o name.now e) operands.new m heap.new
        host.now) }
    ensures there { IfOk result (λ m.
        AreThere heap.new (move_names m (operand_names operands.new (H.names.host host.now)))) }
    ensures more { OnOk result (IsLater heap.old heap.new) }
    ensures shape { IfOk result (λ m. IsShaped (Some Phase.Compute) operands.old operands.new m) }
{
    let answered = read_variable(alloc, operands, at.scope, name, heap, host)?;
    read_before::<H>(operands, answered, right)
}

/// `e.k op= e`: the step that reads (11.13.2).
pub(crate) fn revise_member<H: Host>(
    alloc: Global,
    key: &JText,
    right: NodeId,
    operands: &mut Operands,
    heap: &mut Heap,
    host: &H,
) -> Result<ExprMove, NoMemory>
    requires there { AreThere heap.old (operand_names operands.old (H.names.host host.now)) }
    requires coming { operands.old.todo ≡ [] }
    ensures value { (a : Arena) (o : Operator) → IfOk result (λ m. let e = tree_at a right in
        rows.revise_member_row (hosted H.rows) heap.old host.now o key.now e
        operands.old.done ≡ made_of a (Row.ReviseMember o key.now e) operands.new m heap.new
        host.now) }
    ensures there { IfOk result (λ m.
        AreThere heap.new (move_names m (operand_names operands.new (H.names.host host.now)))) }
    ensures more { OnOk result (IsLater heap.old heap.new) }
    ensures shape { IfOk result (λ m. IsShaped (Some Phase.Compute) operands.old operands.new m) }
{
    let answered = read_base(alloc, operands, key, heap, host)?;
    read_before::<H>(operands, answered, right)
}

/// `e[k] op= e`: the step that reads (11.13.2).
pub(crate) fn revise_index<H: Host>(
    alloc: Global,
    right: NodeId,
    operands: &mut Operands,
    heap: &mut Heap,
    host: &H,
) -> Result<ExprMove, NoMemory>
    requires there { AreThere heap.old (operand_names operands.old (H.names.host host.now)) }
    requires coming { operands.old.todo ≡ [] }
    ensures value { (a : Arena) (o : Operator) → IfOk result (λ m. let e = tree_at a right in
        rows.revise_index_row (hosted H.rows) heap.old host.now o e operands.old.done
        ≡ made_of a (Row.ReviseIndex o e) operands.new m heap.new host.now) }
    ensures there { IfOk result (λ m.
        AreThere heap.new (move_names m (operand_names operands.new (H.names.host host.now)))) }
    ensures more { OnOk result (IsLater heap.old heap.new) }
    ensures shape { IfOk result (λ m. IsShaped (Some Phase.Compute) operands.old operands.new m) }
{
    match read_keyed(alloc, operands, heap, host)? {
        Reached::Moves(moved) => Ok(moved),
        Reached::Gives(answered) => read_before::<H>(operands, answered, right),
    }
}

/// `op=`: the step that computes what is written, behind so many operands of the target (11.13.2).
pub(crate) fn compute<H: Host>(
    alloc: Global,
    operator: BinaryOperator,
    count: usize,
    operands: &mut Operands,
    heap: &mut Heap,
    host: &H,
) -> Result<ExprMove, NoMemory>
    requires there { AreThere heap.old (operand_names operands.old (H.names.host host.now)) }
    requires coming { operands.old.todo ≡ [] }
    requires count { count < 4 }
    ensures value { (a : Arena) (r : Row) → IfOk result (λ m. rows.computed (hosted H.rows)
        heap.old host.now r (later_row r Phase.Assign) count operator operands.old.done
        ≡ made_of a r operands.new m heap.new host.now) }
    ensures there { IfOk result (λ m.
        AreThere heap.new (move_names m (operand_names operands.new (H.names.host host.now)))) }
    ensures more { OnOk result (IsLater heap.old heap.new) }
    ensures shape { IfOk result (λ m. IsShaped (Some Phase.Assign) operands.old operands.new m) }
{
    match operated(alloc, operator, count, operands, heap, host)? {
        Reached::Moves(moved) => Ok(moved),
        Reached::Gives(answered) => assign_next::<H>(alloc, operands, count, answered),
    }
}

/// Whether an assignment to `e.k` makes a step before its right side is evaluated.
pub(crate) fn member_is_early(operands: &Operands) -> bool
    ensures { result ≡ rows.member_is_early operands.now.done }
{
    let undefined = Value::Undefined;
    operands.value_count() == 1 && is_missing(operand(operands, 0, &undefined))
}

/// The same of an assignment to `e[k]`.
pub(crate) fn index_is_early(operands: &Operands) -> bool
    ensures { result ≡ rows.index_is_early operands.now.done }
{
    let undefined = Value::Undefined;
    operands.value_count() == 2
        && (is_missing(operand(operands, 0, &undefined))
            || !operand(operands, 1, &undefined).is_primitive())
}

/// The early step of an assignment to `e[k]` (11.13.1): a base that is undefined or null throws,
/// and a key that is an object is converted.
pub(crate) fn early_index<H: Host>(
    alloc: Global,
    operands: &mut Operands,
    heap: &mut Heap,
    host: &H,
) -> Result<ExprMove, NoMemory>
    requires there { AreThere heap.old (operand_names operands.old (H.names.host host.now)) }
    requires early { rows.index_is_early operands.old.done ≡ true }
    ensures value { IfOk result (λ m. rows.early_index (hosted H.rows) heap.old host.now
        operands.old.done ≡ early_made_of Row.AssignIndex operands.new m heap.new host.now) }
    ensures there { IfOk result (λ m.
        AreThere heap.new (move_names m (operand_names operands.new (H.names.host host.now)))) }
    ensures more { OnOk result (IsLater heap.old heap.new) }
    ensures shape { IfOk result (λ m. IsEarlySo operands.old operands.new m) }
{
    let undefined = Value::Undefined;
    if is_missing(operand(operands, 0, &undefined)) {
        return type_error(alloc, operands, heap, host);
    }
    let wanted = Wanted {
        place: 1,
        by: Hint::Text,
    };
    let conversion = convert_again(alloc, wanted, operands, heap, host)?;
    Ok(ExprMove::Converts(None, conversion))
}
