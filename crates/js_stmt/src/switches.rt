// `switch`.
ghost use Rattle.std.specs.Prelude.{◌≡◌, ◌<◌, IfOk, OnOk, Some, drop, length, slice_get};
ghost use Rattle.js_value.specs.declared.value.Value.{Value as Held};
ghost use Rattle.js_tree.specs.Arena.{Arena};
ghost use Rattle.js_tree.specs.Trees.{cases};
ghost use Rattle.js_term.specs.ArenaOperands.{as_operands};
ghost use Rattle.js_term.specs.Evaluation.{and_then};
ghost use Rattle.js_stmt.specs.CodeRows.{clause_nodes, clauses_as, default_from, ended_as, fresh};
ghost use Rattle.js_stmt.specs.CodeRows.{labels_around, tested_from};
ghost use Rattle.js_stmt.specs.Parts.{Makes};
ghost use Rattle.js_stmt.specs.Steps.{only as only_of, pair};
ghost use Rattle.js_stmt.specs.Switches as switches;
ghost use Rattle.js_stmt.specs.declared.row.StmtRow.{StmtRow};

use crate::found::Found;
use crate::jumps::broken;
use crate::operand_lists::{only, pair_is_same, push_nodes, restart, restart_with};
use crate::{Labelling, StmtMove, StmtPhase, SwitchParts};
use js_term::{Completion, Operands};
use js_tree::{Case, Script};
use js_value::Value;
use mug_text::NoMemory;
use std::alloc::Global;

// The first clause with a test, from this place on.
fn first_tested(clauses: &[Case], from: usize) -> Option<Found>
    ensures { result ≡ tested_from from (drop from clauses.now) }
{
    for at in from..clauses.len() {
        if let Some(node) = clauses[at].test {
            return Some(Found { at, node });
        }
    }
    None
}

// The place of `default`.
fn first_default(clauses: &[Case]) -> Option<usize>
    ensures { result ≡ default_from 0 clauses.now }
{
    for at in 0..clauses.len() {
        if clauses[at].test.is_none() {
            return Some(at);
        }
    }
    None
}

// The statements of the clauses, behind the others.
fn push_statements(operands: &mut Operands, clauses: &[Case]) -> Result<(), NoMemory>
    ensures { OnOk result
        (operands.new ≡ and_then (as_operands (clause_nodes clauses.now)) operands.old) }
{
    for clause in clauses {
        push_nodes(operands, clause.statements.as_slice())?;
    }
    Ok(())
}

// The statements of the clauses from this place on in place of all operands.
fn restart_from(
    alloc: Global,
    operands: &mut Operands,
    clauses: &[Case],
    from: usize,
) -> Result<(), NoMemory>
    ensures { OnOk result (operands.new ≡ fresh (clause_nodes (drop from clauses.now))) }
{
    restart(alloc, operands, &[])?;
    if from < clauses.len() {
        push_statements(operands, &clauses[from..])
    } else {
        Ok(())
    }
}

// Into the statements from the clause of this place on.
fn into_statements(
    alloc: Global,
    parts: SwitchParts<'_>,
    from: usize,
    operands: &mut Operands,
) -> Result<StmtMove, NoMemory>
    ensures { (a : Arena) → IfOk result (λ m.
        Makes a (cases parts.entry.clauses.now) (StmtRow.Switch parts.entry) operands.new m
        (switches.into_statements (labels_around a parts.entry.labelling)
        (clauses_as a (drop from parts.entry.clauses.now)))) }
{
    restart_from(alloc, operands, parts.clauses, from)?;
    Ok(StmtMove::GoesOn(StmtPhase::Clauses))
}

// To `default`, or to the end where there is none.
fn into_default(
    alloc: Global,
    parts: SwitchParts<'_>,
    operands: &mut Operands,
) -> Result<StmtMove, NoMemory>
    ensures { (a : Arena) → IfOk result (λ m.
        Makes a (cases parts.entry.clauses.now) (StmtRow.Switch parts.entry) operands.new m
        (switches.at_default (labels_around a parts.entry.labelling)
        (switches.from_default (clauses_as a parts.entry.clauses.now)))) }
{
    match first_default(parts.clauses) {
        Some(at) => into_statements(alloc, parts, at, operands),
        None => Ok(StmtMove::Finished),
    }
}

// To the next test from this place on, or else to `default`.
fn into_clause(
    alloc: Global,
    parts: SwitchParts<'_>,
    from: usize,
    value: Value,
    operands: &mut Operands,
) -> Result<StmtMove, NoMemory>
    ensures { (a : Arena) → IfOk result (λ m.
        Makes a (cases parts.entry.clauses.now) (StmtRow.Switch parts.entry) operands.new m
        (switches.at_clause (clauses_as a parts.entry.clauses.now)
        (labels_around a parts.entry.labelling) value
        (switches.first_tested (clauses_as a (drop from parts.entry.clauses.now))))) }
{
    match first_tested(parts.clauses, from) {
        Some(found) => {
            restart_with(alloc, operands, value, found.node)?;
            Ok(StmtMove::GoesOn(StmtPhase::Case(found.at)))
        }
        None => into_default(alloc, parts, operands),
    }
}

/// The value is there (ECMA-262 edition 5.1, 12.11).
pub(crate) fn into_switch(
    alloc: Global,
    parts: SwitchParts<'_>,
    operands: &mut Operands,
) -> Result<StmtMove, NoMemory>
    ensures { (a : Arena) → IfOk result (λ m.
        Makes a (cases parts.entry.clauses.now) (StmtRow.Switch parts.entry) operands.new m
        (switches.switch_row (clauses_as a parts.entry.clauses.now)
        (labels_around a parts.entry.labelling) (only_of operands.old.done))) }
{
    let value = match only(operands) {
        Some(value) => value.copy()?,
        None => return Ok(StmtMove::Finished),
    };
    into_clause(alloc, parts, 0, value, operands)
}

// The place behind this one, where there is one.
fn next_place(clauses: &[Case], at: usize) -> usize
    ensures { (a : Arena) → clauses_as a (drop result clauses.now)
        ≡ switches.behind_first (clauses_as a (drop at clauses.now)) }
{
    if at < clauses.len() { at + 1 } else { at }
}

// The test of the clause of this place isn't the value.
fn past_case(
    alloc: Global,
    parts: SwitchParts<'_>,
    at: usize,
    operands: &mut Operands,
) -> Result<StmtMove, NoMemory>
    ensures { (a : Arena) (v : Held) → slice_get operands.old.done 0 ≡ Some v → IfOk result (λ m.
        Makes a (cases parts.entry.clauses.now) (StmtRow.Switch parts.entry) operands.new m
        (switches.at_clause (clauses_as a parts.entry.clauses.now)
        (labels_around a parts.entry.labelling) v (switches.first_tested
        (switches.behind_first (clauses_as a (drop at parts.entry.clauses.now)))))) }
{
    let value = match operands.value(0) {
        Some(value) => value.copy()?,
        None => return Ok(StmtMove::Finished),
    };
    into_clause(alloc, parts, next_place(parts.clauses, at), value, operands)
}

/// The test of the clause of this place has a value (12.11).
pub(crate) fn after_case(
    alloc: Global,
    parts: SwitchParts<'_>,
    at: usize,
    operands: &mut Operands,
) -> Result<StmtMove, NoMemory>
    ensures { (a : Arena) → IfOk result (λ m.
        Makes a (cases parts.entry.clauses.now) (StmtRow.Switch parts.entry) operands.new m
        (switches.case_row (clauses_as a parts.entry.clauses.now)
        (clauses_as a (drop at parts.entry.clauses.now))
        (labels_around a parts.entry.labelling) (pair operands.old.done))) }
{
    let Some(is_same) = pair_is_same(operands) else {
        return Ok(StmtMove::Finished);
    };
    if is_same {
        into_statements(alloc, parts, at, operands)
    } else {
        past_case(alloc, parts, at, operands)
    }
}

/// The statements have come to a completion.
pub(crate) fn switch_met(script: &Script, labelling: Labelling, completion: Completion) -> StmtMove
    requires { labelling.outermost.number < length script.now.kept }
    ensures { ended_as result
        ≡ Some (switches.switch_meets (labels_around script.now labelling) completion) }
{
    match completion {
        Completion::Break(label) => broken(script, labelling, label),
        other => StmtMove::Abrupt(other),
    }
}
