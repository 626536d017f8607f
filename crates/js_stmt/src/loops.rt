// `do`, `while` and `for`.
ghost use Rattle.std.specs.Prelude.{◌≡◌, ◌<◌, IfOk, Some, length};
ghost use Rattle.std.specs.Option.{option_copied};
ghost use Rattle.js_tree.specs.Arena.{Arena};
ghost use Rattle.js_stmt.specs.CodeRows.{ended_as, labels_around, loop_as};
ghost use Rattle.js_stmt.specs.Loops as loops;
ghost use Rattle.js_stmt.specs.Parts.{Makes, loop_parts};
ghost use Rattle.js_stmt.specs.Steps.{only as only_of};
ghost use Rattle.js_stmt.specs.declared.row.StmtRow.{StmtRow};

use crate::jumps::broken;
use crate::labelling::takes;
use crate::operand_lists::{go_on, only};
use crate::{LoopParts, StmtMove, StmtPhase};
use js_term::{Completion, Operands};
use js_tree::Script;
use mug_text::{JText, NoMemory};
use std::alloc::Global;

/// Into the body (ECMA-262 edition 5.1, 12.6.1).
pub(crate) fn into_body(
    alloc: Global,
    parts: LoopParts,
    operands: &mut Operands,
) -> Result<StmtMove, NoMemory>
    ensures { (a : Arena) → IfOk result (λ m. Makes a (loop_parts parts)
        (StmtRow.LoopBody parts) operands.new m (loops.into_body (loop_as a parts))) }
{
    go_on(alloc, operands, StmtPhase::LoopBody, &[parts.body])
}

/// Into the test, or past it where there is none (12.6.2).
pub(crate) fn into_test(
    alloc: Global,
    parts: LoopParts,
    operands: &mut Operands,
) -> Result<StmtMove, NoMemory>
    ensures { (a : Arena) → IfOk result (λ m. Makes a (loop_parts parts)
        (StmtRow.LoopBody parts) operands.new m (loops.into_test (loop_as a parts))) }
{
    match parts.test {
        Some(test) => go_on(alloc, operands, StmtPhase::LoopTest, &[test]),
        None => into_body(alloc, parts, operands),
    }
}

/// Into the start, or past it (12.6.3).
pub(crate) fn into_start(
    alloc: Global,
    parts: LoopParts,
    operands: &mut Operands,
) -> Result<StmtMove, NoMemory>
    ensures { (a : Arena) → IfOk result (λ m. Makes a (loop_parts parts)
        (StmtRow.LoopBody parts) operands.new m (loops.into_start (loop_as a parts))) }
{
    match parts.start {
        Some(start) => go_on(alloc, operands, StmtPhase::LoopStart, &[start]),
        None => into_test(alloc, parts, operands),
    }
}

/// Into the update, or past it (12.6.3).
pub(crate) fn into_update(
    alloc: Global,
    parts: LoopParts,
    operands: &mut Operands,
) -> Result<StmtMove, NoMemory>
    ensures { (a : Arena) → IfOk result (λ m. Makes a (loop_parts parts)
        (StmtRow.LoopBody parts) operands.new m (loops.into_update (loop_as a parts))) }
{
    match parts.update {
        Some(update) => go_on(alloc, operands, StmtPhase::LoopUpdate, &[update]),
        None => into_test(alloc, parts, operands),
    }
}

// Whether the test holds.
fn holds(operands: &Operands) -> bool
    ensures { result ≡ loops.holds (only_of operands.now.done) }
{
    match only(operands) {
        Some(value) => value.to_boolean(),
        None => false,
    }
}

/// Behind the test.
pub(crate) fn after_test(
    alloc: Global,
    parts: LoopParts,
    operands: &mut Operands,
) -> Result<StmtMove, NoMemory>
    ensures { (a : Arena) → IfOk result (λ m. Makes a (loop_parts parts)
        (StmtRow.LoopBody parts) operands.new m
        (loops.test_row (loop_as a parts) (only_of operands.old.done))) }
{
    if holds(operands) {
        into_body(alloc, parts, operands)
    } else {
        Ok(StmtMove::Finished)
    }
}

// The body is ended by a `continue`.
fn continued(
    alloc: Global,
    script: &Script,
    parts: LoopParts,
    label: Option<JText>,
    operands: &mut Operands,
) -> Result<StmtMove, NoMemory>
    requires { parts.labelling.outermost.number < length script.now.kept }
    ensures { IfOk result (λ m. Makes script.now (loop_parts parts)
        (StmtRow.LoopBody parts) operands.new m
        (loops.body_meets (loop_as script.now parts) (Completion.Continue label))) }
{
    if takes(script, parts.labelling, &label) {
        into_update(alloc, parts, operands)
    } else {
        Ok(StmtMove::Abrupt(Completion::Continue(label)))
    }
}

/// The body has come to a completion (12.6).
pub(crate) fn loop_body_met(
    alloc: Global,
    script: &Script,
    parts: LoopParts,
    completion: Completion,
    operands: &mut Operands,
) -> Result<StmtMove, NoMemory>
    requires { parts.labelling.outermost.number < length script.now.kept }
    ensures { IfOk result (λ m. Makes script.now (loop_parts parts)
        (StmtRow.LoopBody parts) operands.new m
        (loops.body_meets (loop_as script.now parts) completion)) }
{
    match completion {
        Completion::Break(label) => Ok(broken(script, parts.labelling, label)),
        Completion::Continue(label) => continued(alloc, script, parts, label, operands),
        other => Ok(StmtMove::Abrupt(other)),
    }
}
