// The steps that nodes make before all of their operands are evaluated.
ghost use Rattle.std.specs.Prelude.{◌≡◌, true, IfOk, OnOk};
ghost use Rattle.js_host.specs.There.{AreThere};
ghost use Rattle.js_reference.specs.Hosted.{hosted};
ghost use Rattle.js_reference.specs.Later.{IsLater};
ghost use Rattle.js_tree.specs.Arena.{Arena};
ghost use Rattle.js_operands.specs.ExprMoves.{early_made_of, move_names, operand_names, row_as};
ghost use Rattle.js_control.specs.Make as make;
ghost use Rattle.js_operands.specs.Shapes.{IsEarlySo};

use crate::assignments::{early_index, index_is_early, member_is_early};
use js_heap::Heap;
use js_host::Host;
use js_operands::{ExprMove, ExprRow, type_error};
use js_term::Operands;
use mug_text::NoMemory;
use std::alloc::Global;

/// Whether a node makes a step before the next of its operands is evaluated.
pub fn is_early(row: ExprRow<'_>, operands: &Operands) -> bool
    ensures { (a : Arena) → result ≡ make.expr_is_early (row_as a row.entry) operands.now.done }
{
    match row {
        ExprRow::AssignMember(_) => member_is_early(operands),
        ExprRow::AssignIndex => index_is_early(operands),
        _ => false,
    }
}

/// That step. What is to come behind the values stays as it is.
pub fn early<H: Host>(
    alloc: Global,
    row: ExprRow<'_>,
    operands: &mut Operands,
    heap: &mut Heap,
    host: &H,
) -> Result<ExprMove, NoMemory>
    requires there { AreThere heap.old (operand_names operands.old (H.names.host host.now)) }
    requires early { (a : Arena) → make.expr_is_early (row_as a row) operands.old.done ≡ true }
    ensures value { (a : Arena) → IfOk result (λ m. make.early_expr (hosted H.rows) heap.old
        host.now (row_as a row.entry) operands.old.done
        ≡ early_made_of (row_as a row.entry) operands.new m heap.new host.now) }
    ensures there { IfOk result (λ m.
        AreThere heap.new (move_names m (operand_names operands.new (H.names.host host.now)))) }
    ensures more { OnOk result (IsLater heap.old heap.new) }
    ensures shape { IfOk result (λ m. IsEarlySo operands.old operands.new m) }
{
    match row {
        ExprRow::AssignIndex => early_index(alloc, operands, heap, host),
        _ => type_error(alloc, operands, heap, host),
    }
}
