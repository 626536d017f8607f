// `var` and `if`.
ghost use Rattle.std.specs.Prelude.{◌≡◌, ◌+◌, ◌<◌, ◌++◌, IfOk, OnOk, drop, length};
ghost use Rattle.std.specs.Option.{option_map};
ghost use Rattle.js_heap.specs.Chains.{IsBelow};
ghost use Rattle.js_heap.specs.Scopes.{scope_number};
ghost use Rattle.js_host.specs.There.{AreThere};
ghost use Rattle.js_reference.specs.Hosted.{hosted};
ghost use Rattle.js_reference.specs.Later.{IsLater};
ghost use Rattle.js_tree.specs.Arena.{Arena};
ghost use Rattle.js_tree.specs.TreeAt.{perhaps_tree, tree_at};
ghost use Rattle.js_stmt.specs.CodeRows.{after_answer, declarators_as, initialised_from};
ghost use Rattle.js_stmt.specs.CodeRows.{move_names, scope_entered};
ghost use Rattle.js_stmt.specs.Parts.{Contracts, Makes};
ghost use Rattle.js_stmt.specs.Shapes.{IsNext, IsShaped};
ghost use Rattle.js_stmt.specs.Steps.{only as only_of};
ghost use Rattle.js_stmt.specs.Variables as var_steps;
ghost use Rattle.js_stmt.specs.declared.row.StmtRow.{StmtRow};
ghost use Rattle.js_tree.specs.Trees.{at, declarators as part_of_list, perhaps, two};

use crate::found::Found;
use crate::operand_lists::{only, restart};
use crate::{StmtMove, StmtPhase};
use js_heap::{Heap, ScopeId};
use js_host::Host;
use js_reference::{Answered, write_name};
use js_term::{Completion, Operands};
use js_tree::{Declarator, NodeId};
use mug_text::NoMemory;
use std::alloc::Global;

// The first declarator with an initialiser, from this place on.
pub(crate) fn first_initialised(declarators: &[Declarator], from: usize) -> Option<Found>
    ensures { result ≡ initialised_from from (drop from declarators.now) }
{
    for at in from..declarators.len() {
        if let Some(node) = declarators[at].value {
            return Some(Found { at, node });
        }
    }
    None
}

// The next initialiser behind this place is evaluated, or the statement is finished.
fn into_next(
    alloc: Global,
    declarators: &[Declarator],
    place: usize,
    operands: &mut Operands,
) -> Result<StmtMove, NoMemory>
    requires { place < length declarators.now }
    ensures { (a : Arena) → IfOk result (λ m. Makes a (part_of_list declarators.now)
        (StmtRow.Var declarators.entry place) operands.new m
        (var_steps.next_declared (var_steps.first_initialised
        (declarators_as a (drop (place + 1) declarators.now))))) }
{
    match first_initialised(declarators, place + 1) {
        Some(found) => {
            restart(alloc, operands, &[found.node])?;
            Ok(StmtMove::GoesOn(StmtPhase::Declared(found.at)))
        }
        None => Ok(StmtMove::Finished),
    }
}

// Behind the write to the name.
fn written(
    alloc: Global,
    declarators: &[Declarator],
    place: usize,
    answered: Answered,
    operands: &mut Operands,
) -> Result<StmtMove, NoMemory>
    requires { place < length declarators.now }
    ensures { (a : Arena) → IfOk result (λ m. Makes a (part_of_list declarators.now)
        (StmtRow.Var declarators.entry place) operands.new m
        (after_answer (var_steps.next_declared (var_steps.first_initialised
        (declarators_as a (drop (place + 1) declarators.now)))) answered)) }
{
    match answered {
        Answered::Returns(_) => into_next(alloc, declarators, place, operands),
        Answered::Throws(error) => Ok(StmtMove::Abrupt(Completion::Throw(error))),
    }
}

/// The initialiser of the declarator at this place has a value (ECMA-262 edition 5.1, 12.2).
#[tactic(auto, using(crate::proofs::Operated::only_there))]
pub(crate) fn initialised<H: Host>(
    alloc: Global,
    declarators: &[Declarator],
    place: usize,
    operands: &mut Operands,
    scope: Option<ScopeId>,
    heap: &mut Heap,
    host: &mut H,
) -> Result<StmtMove, NoMemory>
    requires there { AreThere heap.old (operands.old.done ++ H.names.host host.old) }
    requires scope { IsBelow (length heap.old.scopes) (option_map scope_number scope) }
    ensures value { (a : Arena) → IfOk result (λ m. Contracts (hosted H.rows) scope a
        (StmtRow.Var declarators.entry place) operands.old heap.old host.old
        m operands.new heap.new host.new) }
    ensures there { IfOk result (λ m.
        AreThere heap.new (move_names m operands.new.done (H.names.host host.new))) }
    ensures scope { IfOk result (λ m. IsBelow (length heap.new.scopes) (scope_entered m)) }
    ensures phase { IfOk result (λ m. IsNext (StmtRow.Var declarators.entry place) m) }
    ensures shape { IfOk result (λ m. IsShaped m operands.new.todo) }
    ensures more { OnOk result (IsLater heap.old heap.new) }
{
    if place >= declarators.len() {
        return Ok(StmtMove::Finished);
    }
    let value = match only(operands) {
        Some(value) => value.copy()?,
        None => return Ok(StmtMove::Finished),
    };
    let answered = write_name(alloc, host, heap, scope, &declarators[place].name, value)?;
    written(alloc, declarators, place, answered, operands)
}

/// The test of an `if` has a value (12.5).
pub(crate) fn chosen(then: NodeId, otherwise: Option<NodeId>, operands: &Operands) -> StmtMove
    ensures { (a : Arena) (r : StmtRow) → Makes a (two (at then) (perhaps otherwise)) r
        operands.now result
        (var_steps.if_row (tree_at a then) (perhaps_tree a otherwise) (only_of operands.now.done)) }
{
    match only(operands) {
        Some(value) => {
            if value.to_boolean() {
                StmtMove::Becomes(Some(then))
            } else {
                StmtMove::Becomes(otherwise)
            }
        }
        None => StmtMove::Finished,
    }
}
