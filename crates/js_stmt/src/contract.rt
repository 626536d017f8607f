// The steps of statements, and what completions do.
ghost use Rattle.std.specs.Prelude.{◌≡◌, ◌++◌, true, IfOk, OnOk, length};
ghost use Rattle.std.specs.Option.{option_map};
ghost use Rattle.js_heap.specs.Chains.{IsBelow};
ghost use Rattle.js_heap.specs.Scopes.{scope_number};
ghost use Rattle.js_host.specs.There.{AreThere};
ghost use Rattle.js_reference.specs.Hosted.{hosted};
ghost use Rattle.js_reference.specs.Later.{IsLater};
ghost use Rattle.js_term.specs.declared.context.Context.{Context};
ghost use Rattle.js_tree.specs.Arena.{Arena};
ghost use Rattle.js_stmt.specs.CodeRows.{HasOutermost, completion_names, meeting_touches};
ghost use Rattle.js_stmt.specs.CodeRows.{move_names, progress_of, row_as, row_names};
ghost use Rattle.js_stmt.specs.CodeRows.{scope_entered, touches};
ghost use Rattle.js_stmt.specs.Make.{control_meets, control_row};
ghost use Rattle.js_stmt.specs.Parts.{Contracts, IsHeld, Meets, row_parts};
ghost use Rattle.js_stmt.specs.Shapes.{IsNext, IsShaped};
ghost use Rattle.js_stmt.specs.Wider.{IsWider};

use crate::bodies::{body_finished, body_met};
use crate::for_in::{for_in_met, into_name, list_names};
use crate::jumps::{breaking, continuing, labelled_met, returning, throwing};
use crate::loops::{after_test, into_body, into_start, into_test, into_update, loop_body_met};
use crate::switches::{after_case, into_switch, switch_met};
use crate::tries::{finally_finished, into_finally, try_met};
use crate::variables::{chosen, initialised};
use crate::{StmtMove, StmtRow};
use js_heap::{Heap, ScopeId};
use js_host::Host;
use js_term::{Completion, Operands};
use js_tree::Script;
use mug_text::NoMemory;
use std::alloc::Global;

// The step of a row that touches no world.
#[tactic(auto, using(crate::proofs::MoveRows::ended))]
fn contract_control(
    alloc: Global,
    row: StmtRow<'_>,
    operands: &mut Operands,
) -> Result<StmtMove, NoMemory>
    ensures { (a : Arena) → IfOk result (λ m. (c : Context) → IsHeld a (row_parts row.entry)
        → progress_of a c row.entry operands.new m
        ≡ control_row (row_as a c row.entry) operands.old.done) }
{
    match row {
        StmtRow::If { then, otherwise } => Ok(chosen(then, otherwise, operands)),
        StmtRow::DoWhile(parts) => into_body(alloc, parts, operands),
        StmtRow::While(parts) => into_test(alloc, parts, operands),
        StmtRow::For(parts) => into_start(alloc, parts, operands),
        StmtRow::LoopStart(parts) => into_test(alloc, parts, operands),
        StmtRow::LoopTest(parts) => after_test(alloc, parts, operands),
        StmtRow::LoopBody(parts) => into_update(alloc, parts, operands),
        StmtRow::LoopUpdate(parts) => into_test(alloc, parts, operands),
        StmtRow::Continue(label) => continuing(label),
        StmtRow::Break(label) => breaking(label),
        StmtRow::Return => returning(operands),
        StmtRow::Throw => throwing(operands),
        StmtRow::Switch(parts) => into_switch(alloc, parts, operands),
        StmtRow::Case(parts, at) => after_case(alloc, parts, at, operands),
        StmtRow::Try(guarded) => into_finally(alloc, guarded, None, operands),
        StmtRow::Catch(_, guarded) => into_finally(alloc, guarded, None, operands),
        StmtRow::Finally(kept) => finally_finished(kept),
        StmtRow::Body(made) => body_finished(made),
        StmtRow::Free => Ok(StmtMove::Finished),
        StmtRow::Labelled { .. } => Ok(StmtMove::Finished),
        StmtRow::SwitchBody(_) => Ok(StmtMove::Finished),
        StmtRow::Var { .. } => Ok(StmtMove::Finished),
        StmtRow::ForIn(_) => Ok(StmtMove::Finished),
        StmtRow::ForInNames { .. } => Ok(StmtMove::Finished),
    }
}

// Whether a row's step touches the world, and whether what it does with a completion may.
fn touches_world(row: StmtRow<'_>) -> bool
    ensures { result ≡ touches row.entry }
{
    match row {
        StmtRow::Var { .. } => true,
        StmtRow::ForIn(_) => true,
        StmtRow::ForInNames { .. } => true,
        _ => false,
    }
}

fn meets_world(row: StmtRow<'_>) -> bool
    ensures { result ≡ meeting_touches row.entry }
{
    match row {
        StmtRow::ForInNames { .. } => true,
        StmtRow::Try(_) => true,
        _ => false,
    }
}

// The step of a row that touches the world.
fn contract_world<H: Host>(
    alloc: Global,
    row: StmtRow<'_>,
    operands: &mut Operands,
    scope: Option<ScopeId>,
    heap: &mut Heap,
    host: &mut H,
) -> Result<StmtMove, NoMemory>
    requires touches { touches row ≡ true }
    requires there { AreThere heap.old
        (row_names row (operands.old.done ++ H.names.host host.old)) }
    requires scope { IsBelow (length heap.old.scopes) (option_map scope_number scope) }
    ensures value { (a : Arena) → IfOk result (λ m. Contracts (hosted H.rows) scope a row.entry
        operands.old heap.old host.old m operands.new heap.new host.new) }
    ensures there { IfOk result (λ m.
        AreThere heap.new (move_names m operands.new.done (H.names.host host.new))) }
    ensures scope { IfOk result (λ m. IsBelow (length heap.new.scopes) (scope_entered m)) }
    ensures phase { IfOk result (λ m. IsNext row.entry m) }
    ensures shape { IfOk result (λ m. IsShaped m operands.new.todo) }
    ensures more { OnOk result (IsLater heap.old heap.new) }
{
    match row {
        StmtRow::Var { declarators, at } => {
            initialised(alloc, declarators, at, operands, scope, heap, host)
        }
        StmtRow::ForIn(parts) => list_names(alloc, parts, operands, heap),
        StmtRow::ForInNames {
            parts,
            object,
            names,
            passed,
        } => into_name(
            alloc, parts, object, names, passed, operands, scope, heap, host,
        ),
        _ => unreachable!(),
    }
}

/// The step of a row whose operands are values, in this scope.
pub fn contract_stmt<H: Host>(
    alloc: Global,
    row: StmtRow<'_>,
    operands: &mut Operands,
    scope: Option<ScopeId>,
    heap: &mut Heap,
    host: &mut H,
) -> Result<StmtMove, NoMemory>
    requires there { AreThere heap.old
        (row_names row (operands.old.done ++ H.names.host host.old)) }
    requires scope { IsBelow (length heap.old.scopes) (option_map scope_number scope) }
    ensures value { (a : Arena) → IfOk result (λ m. Contracts (hosted H.rows) scope a row.entry
        operands.old heap.old host.old m operands.new heap.new host.new) }
    ensures there { IfOk result (λ m.
        AreThere heap.new (move_names m operands.new.done (H.names.host host.new))) }
    ensures scope { IfOk result (λ m. IsBelow (length heap.new.scopes) (scope_entered m)) }
    ensures phase { IfOk result (λ m. IsNext row.entry m) }
    ensures shape { IfOk result (λ m. IsShaped m operands.new.todo) }
    ensures more { OnOk result (IsLater heap.old heap.new) }
{
    if touches_world(row) {
        contract_world(alloc, row, operands, scope, heap, host)
    } else {
        contract_control(alloc, row, operands)
    }
}

// What a completion does to a row that touches no world then.
#[tactic(auto, using(crate::proofs::MoveRows::ended))]
fn meet_control(
    alloc: Global,
    script: &Script,
    row: StmtRow<'_>,
    completion: Completion,
    operands: &mut Operands,
) -> Result<StmtMove, NoMemory>
    requires { HasOutermost script.now row }
    ensures { IfOk result (λ m. (c : Context) → IsHeld script.now (row_parts row.entry)
        → progress_of script.now c row.entry operands.new m
        ≡ control_meets (row_as script.now c row.entry) completion) }
{
    match row {
        StmtRow::LoopBody(parts) => loop_body_met(alloc, script, parts, completion, operands),
        StmtRow::Labelled { label, .. } => Ok(labelled_met(label, completion)),
        StmtRow::SwitchBody(labelling) => Ok(switch_met(script, labelling, completion)),
        StmtRow::Catch(_, guarded) => into_finally(alloc, guarded, Some(completion), operands),
        StmtRow::Body(made) => body_met(made, completion),
        _ => Ok(StmtMove::Abrupt(completion)),
    }
}

// What a completion does to a row that may touch the world then.
fn meet_world<H: Host>(
    alloc: Global,
    script: &Script,
    row: StmtRow<'_>,
    completion: Completion,
    operands: &mut Operands,
    scope: Option<ScopeId>,
    heap: &mut Heap,
    host: &mut H,
) -> Result<StmtMove, NoMemory>
    requires touches { meeting_touches row ≡ true }
    requires outermost { HasOutermost script.now row }
    requires held { IsHeld script.now (row_parts row) }
    requires there { AreThere heap.old
        (row_names row (completion_names completion (H.names.host host.old))) }
    requires scope { IsBelow (length heap.old.scopes) (option_map scope_number scope) }
    ensures value { IfOk result (λ m. Meets (hosted H.rows) scope script.now row.entry
        completion heap.old host.old m operands.new heap.new host.new) }
    ensures there { IfOk result (λ m.
        AreThere heap.new (move_names m operands.new.done (H.names.host host.new))) }
    ensures scope { IfOk result (λ m. IsBelow (length heap.new.scopes) (scope_entered m)) }
    ensures phase { IfOk result (λ m. IsNext row.entry m) }
    ensures shape { IfOk result (λ m. IsShaped m operands.new.todo) }
    ensures more { OnOk result (IsWider heap.old heap.new) }
{
    match row {
        StmtRow::ForInNames {
            parts,
            object,
            names,
            passed,
        } => for_in_met(
            alloc, script, parts, object, names, passed, completion, operands, scope, heap, host,
        ),
        StmtRow::Try(guarded) => try_met(alloc, guarded, completion, operands, scope, heap, host),
        _ => unreachable!(),
    }
}

/// What a completion does to a row that its operand has come to, in this scope.
pub fn meet_stmt<H: Host>(
    alloc: Global,
    script: &Script,
    row: StmtRow<'_>,
    completion: Completion,
    operands: &mut Operands,
    scope: Option<ScopeId>,
    heap: &mut Heap,
    host: &mut H,
) -> Result<StmtMove, NoMemory>
    requires outermost { HasOutermost script.now row }
    requires held { IsHeld script.now (row_parts row) }
    requires there { AreThere heap.old
        (row_names row (completion_names completion (H.names.host host.old))) }
    requires scope { IsBelow (length heap.old.scopes) (option_map scope_number scope) }
    ensures value { IfOk result (λ m. Meets (hosted H.rows) scope script.now row.entry
        completion heap.old host.old m operands.new heap.new host.new) }
    ensures there { IfOk result (λ m.
        AreThere heap.new (move_names m operands.new.done (H.names.host host.new))) }
    ensures scope { IfOk result (λ m. IsBelow (length heap.new.scopes) (scope_entered m)) }
    ensures phase { IfOk result (λ m. IsNext row.entry m) }
    ensures shape { IfOk result (λ m. IsShaped m operands.new.todo) }
    ensures more { OnOk result (IsWider heap.old heap.new) }
{
    if meets_world(row) {
        meet_world(alloc, script, row, completion, operands, scope, heap, host)
    } else {
        meet_control(alloc, script, row, completion, operands)
    }
}
