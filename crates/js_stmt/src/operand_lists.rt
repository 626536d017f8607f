// The operands of a statement, which has at most two values, and begins anew in each phase.
ghost use Rattle.std.specs.Prelude.{◌≡◌, ◌∷◌, [], IfOk, OnOk};
ghost use Rattle.std.specs.Option.{option_copied, option_map};
ghost use Rattle.js_value.specs.Same.{same as same_as};
ghost use Rattle.js_term.specs.ArenaOperands.{as_operands};
ghost use Rattle.js_term.specs.Evaluation.{and_then};
ghost use Rattle.js_stmt.specs.CodeRows.{fresh};
ghost use Rattle.js_stmt.specs.Steps.{only as only_of, pair};

use crate::{StmtMove, StmtPhase};
use js_term::{Operand, Operands};
use js_tree::NodeId;
use js_value::{Value, same};
use mug_text::NoMemory;
use std::alloc::Global;

// The value, where there is one and no other.
pub(crate) fn only(operands: &Operands) -> Option<&Value>
    ensures { option_copied result ≡ only_of operands.now.done }
{
    if operands.value_count() == 1 {
        operands.value(0)
    } else {
        None
    }
}

// Whether the two values are the same; none where there are not two.
pub(crate) fn pair_is_same(operands: &Operands) -> Option<bool>
    ensures { result ≡ option_map (λ vs. same_as vs.0 vs.1) (pair operands.now.done) }
{
    if operands.value_count() != 2 {
        return None;
    }
    Some(same(operands.value(0)?, operands.value(1)?))
}

// These nodes, behind the others.
pub(crate) fn push_nodes(operands: &mut Operands, ids: &[NodeId]) -> Result<(), NoMemory>
    ensures { OnOk result (operands.new ≡ and_then (as_operands ids.now) operands.old) }
{
    for id in ids {
        operands.push(Operand::Node(*id))?;
    }
    Ok(())
}

/// These nodes in place of all operands.
pub fn restart(alloc: Global, operands: &mut Operands, ids: &[NodeId]) -> Result<(), NoMemory>
    ensures { OnOk result (operands.new ≡ fresh ids.now) }
{
    *operands = Operands::new(alloc);
    push_nodes(operands, ids)
}

// This value and then this node in place of all operands.
pub(crate) fn restart_with(
    alloc: Global,
    operands: &mut Operands,
    value: Value,
    id: NodeId,
) -> Result<(), NoMemory>
    ensures { OnOk result (operands.new
        ≡ record { done = value ∷ []; todo = as_operands (id ∷ []) }) }
{
    *operands = Operands::new(alloc);
    operands.push(Operand::default())?;
    operands.take(value);
    operands.push(Operand::Node(id))
}

// The statement goes on in this phase, with these nodes as its operands.
pub(crate) fn go_on(
    alloc: Global,
    operands: &mut Operands,
    phase: StmtPhase,
    ids: &[NodeId],
) -> Result<StmtMove, NoMemory>
    ensures phase { IfOk result (λ m. m ≡ StmtMove.GoesOn phase) }
    ensures operands { OnOk result (operands.new ≡ fresh ids.now) }
{
    restart(alloc, operands, ids)?;
    Ok(StmtMove::GoesOn(phase))
}
