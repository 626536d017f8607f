// Names and properties that are read and deleted.
ghost use Rattle.std.specs.Prelude.{◌≡◌, [], IfOk, OnOk, length};
ghost use Rattle.std.specs.Prelude.{Option};
ghost use Rattle.std.specs.Option.{option_map};
ghost use Rattle.js_heap.specs.Chains.{IsBelow};
ghost use Rattle.js_heap.specs.Scopes.{scope_number};
ghost use Rattle.js_host.specs.There.{AreThere};
ghost use Rattle.js_reference.specs.Hosted.{hosted};
ghost use Rattle.js_reference.specs.Later.{IsLater};
ghost use Rattle.js_tree.specs.Arena.{Arena};
ghost use Rattle.js_control.specs.Accesses as rows;
ghost use Rattle.js_operands.specs.ExprMoves.{made_of, move_names, operand_names};
ghost use Rattle.js_operands.specs.Rows.{ExprRow as Row};
ghost use Rattle.js_operands.specs.Shapes.{IsShaped};
ghost use Rattle.js_operands.specs.declared.row.Phase.{Phase as PhaseKind};
ghost use Rattle.js_term.specs.Evaluation.{Evaluation};

use js_heap::Heap;
use js_host::Host;
use js_operands::{
    ExprMove, Reached, delete_base, delete_keyed, given, read_base, read_keyed, read_variable,
};
use js_term::{Context, Operands};
use mug_text::{JText, NoMemory};
use std::alloc::Global;

/// A name (ECMA-262 edition 5.1, 11.1.2).
pub(crate) fn name<H: Host>(
    alloc: Global,
    name: &JText,
    at: &Context,
    operands: &Operands,
    heap: &mut Heap,
    host: &H,
) -> Result<ExprMove, NoMemory>
    requires there { AreThere heap.old (operand_names operands.now (H.names.host host.now)) }
    requires scope { IsBelow (length heap.old.scopes) (option_map scope_number at.now.scope) }
    ensures value { (a : Arena) (r : Row) → IfOk result (λ m. rows.name_row (hosted H.rows) at.now
        heap.old host.now name.now ≡ made_of a r operands.now m heap.new host.now) }
    ensures there { IfOk result (λ m.
        AreThere heap.new (move_names m (operand_names operands.now (H.names.host host.now)))) }
    ensures more { OnOk result (IsLater heap.old heap.new) }
    ensures shape { (n : Option PhaseKind) (e f : Evaluation) → IfOk result (λ m.
        IsShaped n e f m) }
{
    let answered = read_variable(alloc, operands, at.scope, name, heap, host)?;
    Ok(given::<H>(answered))
}

/// `e.k` (11.2.1).
pub(crate) fn member<H: Host>(
    alloc: Global,
    key: &JText,
    operands: &Operands,
    heap: &mut Heap,
    host: &H,
) -> Result<ExprMove, NoMemory>
    requires { AreThere heap.old (operand_names operands.now (H.names.host host.now)) }
    ensures value { (a : Arena) (r : Row) → IfOk result (λ m. rows.member_row (hosted H.rows)
        heap.old host.now key.now operands.now.done
        ≡ made_of a r operands.now m heap.new host.now) }
    ensures there { IfOk result (λ m.
        AreThere heap.new (move_names m (operand_names operands.now (H.names.host host.now)))) }
    ensures more { OnOk result (IsLater heap.old heap.new) }
    ensures shape { (n : Option PhaseKind) (e f : Evaluation) → IfOk result (λ m.
        IsShaped n e f m) }
{
    let answered = read_base(alloc, operands, key, heap, host)?;
    Ok(given::<H>(answered))
}

/// `e[k]` (11.2.1).
pub(crate) fn index<H: Host>(
    alloc: Global,
    operands: &mut Operands,
    heap: &mut Heap,
    host: &H,
) -> Result<ExprMove, NoMemory>
    requires there { AreThere heap.old (operand_names operands.old (H.names.host host.now)) }
    requires coming { operands.old.todo ≡ [] }
    ensures value { (a : Arena) → IfOk result (λ m. rows.index_row (hosted H.rows) heap.old
        host.now operands.old.done ≡ made_of a Row.Index operands.new m heap.new host.now) }
    ensures there { IfOk result (λ m.
        AreThere heap.new (move_names m (operand_names operands.new (H.names.host host.now)))) }
    ensures more { OnOk result (IsLater heap.old heap.new) }
    ensures shape { (n : Option PhaseKind) → IfOk result (λ m.
        IsShaped n operands.old operands.new m) }
{
    match read_keyed(alloc, operands, heap, host)? {
        Reached::Moves(moved) => Ok(moved),
        Reached::Gives(answered) => Ok(given::<H>(answered)),
    }
}

/// `delete e.k` (11.4.1).
pub(crate) fn delete_member<H: Host>(
    alloc: Global,
    key: &JText,
    operands: &Operands,
    heap: &mut Heap,
    host: &H,
) -> Result<ExprMove, NoMemory>
    requires { AreThere heap.old (operand_names operands.now (H.names.host host.now)) }
    ensures value { (a : Arena) (r : Row) → IfOk result (λ m. rows.delete_member_row
        (hosted H.rows) heap.old host.now key.now operands.now.done
        ≡ made_of a r operands.now m heap.new host.now) }
    ensures there { IfOk result (λ m.
        AreThere heap.new (move_names m (operand_names operands.now (H.names.host host.now)))) }
    ensures more { OnOk result (IsLater heap.old heap.new) }
    ensures shape { (n : Option PhaseKind) (e f : Evaluation) → IfOk result (λ m.
        IsShaped n e f m) }
{
    let answered = delete_base(alloc, operands, key, heap, host)?;
    Ok(given::<H>(answered))
}

/// `delete e[k]` (11.4.1).
pub(crate) fn delete_index<H: Host>(
    alloc: Global,
    operands: &mut Operands,
    heap: &mut Heap,
    host: &H,
) -> Result<ExprMove, NoMemory>
    requires there { AreThere heap.old (operand_names operands.old (H.names.host host.now)) }
    requires coming { operands.old.todo ≡ [] }
    ensures value { (a : Arena) → IfOk result (λ m. rows.delete_index_row (hosted H.rows) heap.old
        host.now operands.old.done ≡ made_of a Row.DeleteIndex operands.new m heap.new host.now) }
    ensures there { IfOk result (λ m.
        AreThere heap.new (move_names m (operand_names operands.new (H.names.host host.now)))) }
    ensures more { OnOk result (IsLater heap.old heap.new) }
    ensures shape { (n : Option PhaseKind) → IfOk result (λ m.
        IsShaped n operands.old operands.new m) }
{
    match delete_keyed(alloc, operands, heap, host)? {
        Reached::Moves(moved) => Ok(moved),
        Reached::Gives(answered) => Ok(given::<H>(answered)),
    }
}
