// for-in.
ghost use Rattle.std.specs.Prelude.{◌≡◌, ◌∷◌, ◌++◌, ◌<◌, [], IfOk, IfSome, OnOk, drop, length};
ghost use Rattle.std.specs.Option.{option_map};
ghost use Rattle.js_heap.specs.Chains.{IsBelow};
ghost use Rattle.js_heap.specs.Scopes.{scope_number};
ghost use Rattle.js_host.specs.There.{AreThere};
ghost use Rattle.js_reference.specs.Hosted.{hosted};
ghost use Rattle.js_reference.specs.Later.{IsLater};
ghost use Rattle.js_term.specs.declared.context.Context.{Context};
ghost use Rattle.js_tree.specs.Arena.{Arena};
ghost use Rattle.js_tree.specs.TreeAt.{tree_at};
ghost use Rattle.js_stmt.specs.CodeRows.{after_answer, names_from, names_passed, progress_of};
ghost use Rattle.js_stmt.specs.CodeRows.{completion_names, labels_around, move_names, row_as};
ghost use Rattle.js_stmt.specs.CodeRows.{scope_entered};
ghost use Rattle.js_stmt.specs.ForIn as for_in;
ghost use Rattle.js_stmt.specs.Made.{Progress};
ghost use Rattle.js_stmt.specs.Parts.{Contracts, Makes, Meets};
ghost use Rattle.js_stmt.specs.Shapes.{IsNext, IsShaped};
ghost use Rattle.js_stmt.specs.Steps.{only as only_of};
ghost use Rattle.js_stmt.specs.declared.row.StmtRow.{StmtRow};
ghost use Rattle.js_tree.specs.Trees.{at as part_at, one};

use crate::jumps::broken;
use crate::labelling::takes;
use crate::operand_lists::{go_on, only};
use crate::{ForInParts, StmtMove, StmtPhase};
use js_heap::{Heap, ScopeId};
use js_host::Host;
use js_reference::{Answered, keys_in, property, write_name};
use js_term::{Completion, Operands};
use js_tree::{NodeId, Script};
use js_value::Value;
use mug_text::{JText, NoMemory};
use std::alloc::Global;

/// The value is there: its names are listed (ECMA-262 edition 5.1, 12.6.4).
#[tactic(auto, using(crate::proofs::Operated::only_is_there))]
pub(crate) fn list_names(
    alloc: Global,
    parts: ForInParts<'_>,
    operands: &mut Operands,
    heap: &Heap,
) -> Result<StmtMove, NoMemory>
    requires { AreThere heap.now operands.old.done }
    ensures { (a : Arena) → IfOk result (λ m. Makes a (one (part_at parts.entry.body))
        (StmtRow.ForIn parts.entry) operands.new m
        (for_in.for_in_row heap.now parts.entry.name.now (tree_at a parts.entry.body)
        (labels_around a parts.entry.labelling) (only_of operands.old.done))) }
{
    let _body = parts.body;
    let object = match only(operands) {
        Some(value) => value.copy()?,
        None => return Ok(StmtMove::Finished),
    };
    let names = keys_in(alloc, heap, &object)?;
    *operands = Operands::new(alloc);
    Ok(StmtMove::Names { object, names })
}

// The place of the first name from this one on that the value still has.
fn still_there<H: Host>(
    alloc: Global,
    object: &Value,
    names: &[JText],
    from: usize,
    heap: &Heap,
    host: &H,
) -> Result<Option<usize>, NoMemory>
    requires { AreThere heap.now (object.now ∷ H.names.host host.now) }
    ensures value { IfOk result (λ o. names_from names.now o ≡
        for_in.still_there (hosted H.rows) heap.now host.now object.now (drop from names.now)) }
    ensures within { IfOk result (λ o. IfSome o (λ i. i < length names.now)) }
{
    for at in from..names.len() {
        if property(alloc, host, heap, object, &names[at])?.is_some() {
            return Ok(Some(at));
        }
    }
    Ok(None)
}

// Behind the write to the variable: the names before this place are passed.
fn into_body(
    alloc: Global,
    body: NodeId,
    passed: usize,
    answered: Answered,
    operands: &mut Operands,
) -> Result<StmtMove, NoMemory>
    ensures { (a : Arena) (r : StmtRow) → IfOk result (λ m. (c : Context) →
        progress_of a c r operands.new m ≡ after_answer (Progress.GoesOn
        (row_as a c (names_passed passed r)) [] (tree_at a body ∷ [])) answered) }
{
    match answered {
        Answered::Returns(_) => go_on(alloc, operands, StmtPhase::Names(passed), &[body]),
        Answered::Throws(error) => Ok(StmtMove::Abrupt(Completion::Throw(error))),
    }
}

/// The next name that is still there is given to the variable, and the body comes; where none is,
/// the statement is finished.
pub(crate) fn into_name<H: Host>(
    alloc: Global,
    parts: ForInParts<'_>,
    object: &Value,
    names: &[JText],
    passed: usize,
    operands: &mut Operands,
    scope: Option<ScopeId>,
    heap: &mut Heap,
    host: &mut H,
) -> Result<StmtMove, NoMemory>
    requires there { AreThere heap.old (object.now ∷ H.names.host host.old) }
    requires scope { IsBelow (length heap.old.scopes) (option_map scope_number scope) }
    ensures value { (a : Arena) → IfOk result (λ m. Contracts (hosted H.rows) scope a
        (StmtRow.ForInNames parts.entry object.entry names.entry passed) operands.old
        heap.old host.old m operands.new heap.new host.new) }
    ensures there { IfOk result (λ m.
        AreThere heap.new (move_names m operands.new.done (H.names.host host.new))) }
    ensures scope { IfOk result (λ m. IsBelow (length heap.new.scopes) (scope_entered m)) }
    ensures phase { IfOk result (λ m. IsNext
        (StmtRow.ForInNames parts.entry object.entry names.entry passed) m) }
    ensures shape { IfOk result (λ m. IsShaped m operands.new.todo) }
    ensures more { OnOk result (IsLater heap.old heap.new) }
{
    let Some(at) = still_there(alloc, object, names, passed, heap, host)? else {
        return Ok(StmtMove::Finished);
    };
    let name = Value::Text(names[at].copy()?);
    let answered = write_name(alloc, host, heap, scope, parts.name, name)?;
    into_body(alloc, parts.body, at + 1, answered, operands)
}

// The body is ended by a `continue`.
fn continued<H: Host>(
    alloc: Global,
    script: &Script,
    parts: ForInParts<'_>,
    object: &Value,
    names: &[JText],
    passed: usize,
    label: Option<JText>,
    operands: &mut Operands,
    scope: Option<ScopeId>,
    heap: &mut Heap,
    host: &mut H,
) -> Result<StmtMove, NoMemory>
    requires outermost { parts.labelling.outermost.number < length script.now.kept }
    requires there { AreThere heap.old (object.now ∷ H.names.host host.old) }
    requires scope { IsBelow (length heap.old.scopes) (option_map scope_number scope) }
    ensures value { IfOk result (λ m. Meets (hosted H.rows) scope script.now
        (StmtRow.ForInNames parts.entry object.entry names.entry passed)
        (Completion.Continue label) heap.old host.old m operands.new heap.new host.new) }
    ensures there { IfOk result (λ m.
        AreThere heap.new (move_names m operands.new.done (H.names.host host.new))) }
    ensures scope { IfOk result (λ m. IsBelow (length heap.new.scopes) (scope_entered m)) }
    ensures phase { IfOk result (λ m. IsNext
        (StmtRow.ForInNames parts.entry object.entry names.entry passed) m) }
    ensures shape { IfOk result (λ m. IsShaped m operands.new.todo) }
    ensures more { OnOk result (IsLater heap.old heap.new) }
{
    if takes(script, parts.labelling, &label) {
        into_name(
            alloc, parts, object, names, passed, operands, scope, heap, host,
        )
    } else {
        Ok(StmtMove::Abrupt(Completion::Continue(label)))
    }
}

/// The body has come to a completion.
#[tactic(auto, using(crate::proofs::Brought::broken_there, crate::proofs::Brought::ended_scope, crate::proofs::Shaped::ended_next, crate::proofs::Shaped::ended_shaped))]
pub(crate) fn for_in_met<H: Host>(
    alloc: Global,
    script: &Script,
    parts: ForInParts<'_>,
    object: &Value,
    names: &[JText],
    passed: usize,
    completion: Completion,
    operands: &mut Operands,
    scope: Option<ScopeId>,
    heap: &mut Heap,
    host: &mut H,
) -> Result<StmtMove, NoMemory>
    requires outermost { parts.labelling.outermost.number < length script.now.kept }
    requires there { AreThere heap.old
        (object.now ∷ completion_names completion (H.names.host host.old)) }
    requires scope { IsBelow (length heap.old.scopes) (option_map scope_number scope) }
    ensures value { IfOk result (λ m. Meets (hosted H.rows) scope script.now
        (StmtRow.ForInNames parts.entry object.entry names.entry passed)
        completion heap.old host.old m operands.new heap.new host.new) }
    ensures there { IfOk result (λ m.
        AreThere heap.new (move_names m operands.new.done (H.names.host host.new))) }
    ensures scope { IfOk result (λ m. IsBelow (length heap.new.scopes) (scope_entered m)) }
    ensures phase { IfOk result (λ m. IsNext
        (StmtRow.ForInNames parts.entry object.entry names.entry passed) m) }
    ensures shape { IfOk result (λ m. IsShaped m operands.new.todo) }
    ensures more { OnOk result (IsLater heap.old heap.new) }
{
    match completion {
        Completion::Break(label) => Ok(broken(script, parts.labelling, label)),
        Completion::Continue(label) => continued(
            alloc, script, parts, object, names, passed, label, operands, scope, heap, host,
        ),
        other => Ok(StmtMove::Abrupt(other)),
    }
}
