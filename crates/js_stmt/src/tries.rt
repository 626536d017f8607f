// `try`.
ghost use Rattle.std.specs.Prelude.{◌≡◌, [], IfOk, Some, length};
ghost use Rattle.std.specs.Option.{option_copied, option_map};
ghost use Rattle.js_heap.specs.Chains.{IsBelow};
ghost use Rattle.js_heap.specs.Closed.{IsThere};
ghost use Rattle.js_heap.specs.Scopes.{scope_number};
ghost use Rattle.js_host.specs.There.{AreThere};
ghost use Rattle.js_term.specs.declared.context.Context.{Context};
ghost use Rattle.js_tree.specs.Arena.{Arena};
ghost use Rattle.js_tree.specs.TreeAt.{tree_of};
ghost use Rattle.js_tree.specs.Trees.{at_last, nodes};
ghost use Rattle.js_stmt.specs.CodeRows.{catch_as, completion_names, ended_as, finally_as};
ghost use Rattle.js_stmt.specs.CodeRows.{made_of};
ghost use Rattle.js_stmt.specs.Parts.{IsHeld, Makes, try_parts};
ghost use Rattle.js_stmt.specs.Tries as tries;
ghost use Rattle.js_stmt.specs.declared.row.StmtRow.{StmtRow};

use crate::operand_lists::restart;
use crate::scopes::new_scope;
use crate::{StmtMove, StmtPhase};
use js_heap::{Heap, ScopeId};
use js_reference::{ErrorName, new_error, scopes_fit};
use js_term::{Completion, Operands};
use js_tree::{Catch, Guarded};
use js_value::Value;
use mug_text::NoMemory;
use std::alloc::Global;

/// What is kept is brought back (ECMA-262 edition 5.1, 12.14).
pub(crate) fn brought_back(kept: Option<Completion>) -> StmtMove
    ensures { ended_as result ≡ Some (tries.finally_row kept) }
{
    match kept {
        Some(completion) => StmtMove::Abrupt(completion),
        None => StmtMove::Finished,
    }
}

/// `finally` is finished.
pub(crate) fn finally_finished(kept: Option<&Completion>) -> Result<StmtMove, NoMemory>
    ensures { IfOk result (λ m. ended_as m ≡ Some (tries.finally_row (option_copied kept.entry))) }
{
    match kept {
        Some(completion) => Ok(StmtMove::Abrupt(completion.copy()?)),
        None => Ok(StmtMove::Finished),
    }
}

/// Into `finally` with what is kept, or the end where there is none.
pub(crate) fn into_finally(
    alloc: Global,
    guarded: &Guarded,
    kept: Option<Completion>,
    operands: &mut Operands,
) -> Result<StmtMove, NoMemory>
    ensures { (a : Arena) (r : StmtRow) → IfOk result (λ m.
        Makes a (at_last guarded.now.finally) r operands.new m
        (tries.into_finally (finally_as a guarded.now) kept)) }
{
    match &guarded.finally {
        Some(statements) => {
            restart(alloc, operands, statements.as_slice())?;
            Ok(StmtMove::Finally(kept))
        }
        None => Ok(brought_back(kept)),
    }
}

// A throw out of the block: into the catch, in a scope of its own.
fn into_catch<H>(
    alloc: Global,
    guarded: &Guarded,
    catch: &Catch,
    thrown: Value,
    operands: &mut Operands,
    scope: Option<ScopeId>,
    heap: &mut Heap,
    host: &H,
) -> Result<StmtMove, NoMemory>
    requires thrown { IsThere heap.old thrown }
    requires scope { IsBelow (length heap.old.scopes) (option_map scope_number scope) }
    ensures { (a : Arena) (c : Context) → IsHeld a (nodes catch.now.statements)
        → IfOk result (λ m. made_of a c (StmtRow.Try guarded.entry) operands.new m
        heap.new host.now ≡ tries.into_catch scope heap.old host.now catch.now.name
        (tree_of a (nodes catch.now.statements)) (finally_as a guarded.now) thrown) }
{
    let _finally = &guarded.finally;
    if !scopes_fit(heap, 1) {
        let error = new_error(alloc, heap, ErrorName::RangeError)?;
        return Ok(StmtMove::Abrupt(Completion::Throw(error)));
    }
    let inner = new_scope(heap, scope)?;
    heap.declare(inner, &catch.name, thrown)?;
    restart(alloc, operands, catch.statements.as_slice())?;
    Ok(StmtMove::GoesOn(StmtPhase::Catch(inner)))
}

// A throw out of the block.
fn try_thrown<H>(
    alloc: Global,
    guarded: &Guarded,
    thrown: Value,
    operands: &mut Operands,
    scope: Option<ScopeId>,
    heap: &mut Heap,
    host: &H,
) -> Result<StmtMove, NoMemory>
    requires thrown { IsThere heap.old thrown }
    requires scope { IsBelow (length heap.old.scopes) (option_map scope_number scope) }
    ensures { (a : Arena) (c : Context) → IsHeld a (try_parts guarded.now)
        → IfOk result (λ m. made_of a c (StmtRow.Try guarded.entry) operands.new m
        heap.new host.now ≡ tries.throw_meets scope heap.old host.now
        (catch_as a guarded.now) (finally_as a guarded.now) thrown) }
{
    match &guarded.catch {
        Some(catch) => into_catch(alloc, guarded, catch, thrown, operands, scope, heap, host),
        None => into_finally(alloc, guarded, Some(Completion::Throw(thrown)), operands),
    }
}

/// The block has come to a completion.
pub(crate) fn try_met<H>(
    alloc: Global,
    guarded: &Guarded,
    completion: Completion,
    operands: &mut Operands,
    scope: Option<ScopeId>,
    heap: &mut Heap,
    host: &H,
) -> Result<StmtMove, NoMemory>
    requires there { AreThere heap.old (completion_names completion []) }
    requires scope { IsBelow (length heap.old.scopes) (option_map scope_number scope) }
    ensures { (a : Arena) (c : Context) → IsHeld a (try_parts guarded.now)
        → IfOk result (λ m. made_of a c (StmtRow.Try guarded.entry) operands.new m
        heap.new host.now ≡ tries.try_meets scope heap.old host.now
        (catch_as a guarded.now) (finally_as a guarded.now) completion) }
{
    match completion {
        Completion::Throw(thrown) => try_thrown(
            alloc, guarded, thrown, operands, scope, heap, host,
        ),
        Completion::Return(value) => {
            into_finally(alloc, guarded, Some(Completion::Return(value)), operands)
        }
        Completion::Break(label) => {
            into_finally(alloc, guarded, Some(Completion::Break(label)), operands)
        }
        Completion::Continue(label) => {
            into_finally(alloc, guarded, Some(Completion::Continue(label)), operands)
        }
    }
}
