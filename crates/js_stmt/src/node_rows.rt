// The row of a node in a phase.
ghost use Rattle.std.specs.Prelude.{◌≡◌, ◌<◌, IfSome, Option, Some, length, unwrap_or};
ghost use Rattle.std.specs.Option.{option_copied, option_map};
ghost use Rattle.js_term.specs.declared.context.Context.{Context};
ghost use Rattle.js_tree.specs.Arena.{Arena, IsWithin};
ghost use Rattle.js_tree.specs.TreeAt.{tree_at};
ghost use Rattle.js_tree.specs.Trees.{at as part_at, declarators as part_of_list, parts as parts_of};
ghost use Rattle.js_stmt.specs.CodeRows.{declarators_as, labels_around, loop_as, row_as};
ghost use Rattle.js_stmt.specs.Lent.{IsLent, IsLentOf, node_loop};
ghost use Rattle.js_stmt.specs.NodeRows as rows;
ghost use Rattle.js_stmt.specs.Parts.{IsHeld, loop_parts as parts_of_loop, row_parts};
ghost use Rattle.js_stmt.specs.Rows.{StmtRow as Row};
ghost use Rattle.js_stmt.specs.Syntax as syntax;
ghost use Rattle.js_stmt.specs.Variables.{row_of_var};

use crate::variables::first_initialised;
use crate::{ForInParts, Labelling, LoopParts, StmtKept, StmtPhase, StmtRow, SwitchParts};
use js_heap::ScopeId;
use js_term::Completion;
use js_tree::{Declarator, Node, NodeId, Script};
use js_value::Value;
use mug_text::JText;

// The parts of a loop.
fn loop_parts(node: &Node, labelling: Labelling) -> Option<LoopParts>
    ensures parts { (a : Arena) → option_map (loop_as a) result
        ≡ rows.loop_at a (labels_around a labelling) node.now }
    ensures held { (a : Arena) → IsHeld a (parts_of node.now)
        → IfSome result (λ l. IsHeld a (parts_of_loop l)) }
    ensures lent { result ≡ node_loop labelling (Some node.now) }
{
    match node {
        Node::DoWhile { body, test } => Some(LoopParts {
            start: None,
            test: Some(*test),
            update: None,
            body: *body,
            labelling,
        }),
        Node::While { test, body } => Some(LoopParts {
            start: None,
            test: Some(*test),
            update: None,
            body: *body,
            labelling,
        }),
        Node::For {
            start,
            test,
            update,
            body,
        } => Some(LoopParts {
            start: *start,
            test: *test,
            update: *update,
            body: *body,
            labelling,
        }),
        _ => None,
    }
}

// The name of the first declarator.
fn first_name(list: &[Declarator]) -> Option<&JText>
    ensures { option_copied result ≡ rows.first_name list.now }
{
    match list {
        [first, ..] => Some(&first.name),
        [] => None,
    }
}

// The variable of a for-in: a name, or a `var` of one name.
fn name_of_target(target: &Node) -> Option<&JText>
    ensures { option_copied result ≡ rows.target_name target.now }
{
    match target {
        Node::Name(name) => Some(name),
        Node::Var(list) => first_name(list.as_slice()),
        _ => None,
    }
}

// The same of the node that is the target.
fn named_target(script: &Script, target: NodeId) -> Option<&JText>
    requires { target.number < length script.now.kept }
    ensures { option_copied result ≡ syntax.name_of_target (tree_at script.now target) }
{
    let _nodes = script.count();
    name_of_target(script.node(target))
}

// A `var` as it begins.
fn var_row(list: &[Declarator]) -> StmtRow<'_>
    ensures row { (a : Arena) (c : Context) → IsHeld a (part_of_list list.now)
        → row_as a c result ≡ row_of_var (declarators_as a list.now) }
    ensures held { (a : Arena) → IsHeld a (part_of_list list.now) → IsHeld a (row_parts result) }
    ensures lent { (a : Arena) (ls : Labelling) (k : StmtKept)
        → IsLentOf a ls (Some (Node.Var list.now)) k result }
{
    match first_initialised(list, 0) {
        Some(found) => StmtRow::Var {
            declarators: list,
            at: found.at,
        },
        None => StmtRow::Free,
    }
}

// A for-in as it begins.
fn for_in_row(script: &Script, target: NodeId, body: NodeId, labelling: Labelling) -> StmtRow<'_>
    requires { target.number < length script.now.kept }
    ensures row { (c : Context) → row_as script.now c result ≡ unwrap_or (option_map
        (λ k. Row.ForIn k (tree_at script.now body) (labels_around script.now labelling))
        (syntax.name_of_target (tree_at script.now target))) Row.Free }
    ensures held { (a : Arena) → IsHeld a (part_at body) → IsHeld a (row_parts result) }
    ensures lent { (value : NodeId) (k : StmtKept)
        → IsLentOf script.now labelling (Some (Node.ForIn target value body)) k result }
{
    match named_target(script, target) {
        Some(name) => StmtRow::ForIn(ForInParts {
            name,
            body,
            labelling,
        }),
        None => StmtRow::Free,
    }
}

// As the node begins.
fn begun_row<'a>(script: &'a Script, node: &'a Node, labelling: Labelling) -> StmtRow<'a>
    requires within { IsWithin (length script.now.kept) (length script.now.pending)
        (parts_of node.now) }
    requires held { IsHeld script.now (parts_of node.now) }
    ensures row { (c : Context) → row_as script.now c result
        ≡ rows.begun_row script.now (labels_around script.now labelling) node.now }
    ensures held { IsHeld script.now (row_parts result) }
    ensures lent { (k : StmtKept) → IsLentOf script.now labelling (Some node.now) k result }
{
    match node {
        Node::Var(list) => var_row(list.as_slice()),
        Node::If {
            then,
            otherwise,
            ..
        } => StmtRow::If {
            then: *then,
            otherwise: *otherwise,
        },
        Node::DoWhile { body, test } => StmtRow::DoWhile(LoopParts {
            start: None,
            test: Some(*test),
            update: None,
            body: *body,
            labelling,
        }),
        Node::While { test, body } => StmtRow::While(LoopParts {
            start: None,
            test: Some(*test),
            update: None,
            body: *body,
            labelling,
        }),
        Node::For {
            start,
            test,
            update,
            body,
        } => StmtRow::For(LoopParts {
            start: *start,
            test: *test,
            update: *update,
            body: *body,
            labelling,
        }),
        Node::ForIn { target, body, .. } => for_in_row(script, *target, *body, labelling),
        Node::Continue(label) => StmtRow::Continue(label),
        Node::Break(label) => StmtRow::Break(label),
        Node::Return(_) => StmtRow::Return,
        Node::Throw(_) => StmtRow::Throw,
        Node::Labelled { label, .. } => StmtRow::Labelled { label, labelling },
        Node::Switch { cases, .. } => StmtRow::Switch(SwitchParts {
            clauses: cases.as_slice(),
            labelling,
        }),
        Node::Try(guarded) => StmtRow::Try(guarded),
        _ => StmtRow::Free,
    }
}

// A loop in this phase.
fn loop_in_phase<'a>(parts: Option<LoopParts>, phase: StmtPhase) -> StmtRow<'a>
    ensures row { (a : Arena) (c : Context) → row_as a c result
        ≡ rows.loop_row phase (option_map (loop_as a) parts) }
    ensures held { (a : Arena) → IfSome parts (λ l. IsHeld a (parts_of_loop l))
        → IsHeld a (row_parts result) }
    ensures lent { (a : Arena) (ls : Labelling) (n : Option Node) (k : StmtKept)
        → parts ≡ node_loop ls n → IsLentOf a ls n k result }
{
    let Some(parts) = parts else {
        return StmtRow::Free;
    };
    match phase {
        StmtPhase::LoopStart => StmtRow::LoopStart(parts),
        StmtPhase::LoopTest => StmtRow::LoopTest(parts),
        StmtPhase::LoopBody => StmtRow::LoopBody(parts),
        StmtPhase::LoopUpdate => StmtRow::LoopUpdate(parts),
        _ => StmtRow::Free,
    }
}

// A `var` at the declarator of this place.
fn declared_row(node: &Node, at: usize) -> StmtRow<'_>
    ensures row { (a : Arena) (c : Context) → row_as a c result ≡ rows.declared_row a at node.now }
    ensures held { (a : Arena) → IsHeld a (parts_of node.now) → IsHeld a (row_parts result) }
    ensures lent { (a : Arena) (ls : Labelling) (k : StmtKept)
        → IsLentOf a ls (Some node.now) k result }
{
    match node {
        Node::Var(list) => StmtRow::Var {
            declarators: list.as_slice(),
            at,
        },
        _ => StmtRow::Free,
    }
}

// A switch at the test of the clause of this place.
fn case_row(node: &Node, labelling: Labelling, at: usize) -> StmtRow<'_>
    ensures row { (a : Arena) (c : Context) → row_as a c result
        ≡ rows.case_row a (labels_around a labelling) at node.now }
    ensures held { (a : Arena) → IsHeld a (parts_of node.now) → IsHeld a (row_parts result) }
    ensures lent { (a : Arena) (k : StmtKept) → IsLentOf a labelling (Some node.now) k result }
{
    match node {
        Node::Switch { cases, .. } => {
            let clauses = cases.as_slice();
            StmtRow::Case(SwitchParts { clauses, labelling }, at)
        }
        _ => StmtRow::Free,
    }
}

// A switch in its statements.
fn clauses_row(node: &Node, labelling: Labelling) -> StmtRow<'_>
    ensures row { (a : Arena) (c : Context) → row_as a c result
        ≡ rows.clauses_row (labels_around a labelling) node.now }
    ensures held { (a : Arena) → IsHeld a (row_parts result) }
    ensures lent { (a : Arena) (k : StmtKept) → IsLentOf a labelling (Some node.now) k result }
{
    match node {
        Node::Switch { .. } => StmtRow::SwitchBody(labelling),
        _ => StmtRow::Free,
    }
}

// A try in its catch.
fn catch_row(node: &Node, scope: ScopeId) -> StmtRow<'_>
    ensures row { (a : Arena) (c : Context) → row_as a c result ≡ rows.catch_row a scope node.now }
    ensures held { (a : Arena) → IsHeld a (parts_of node.now) → IsHeld a (row_parts result) }
    ensures lent { (a : Arena) (ls : Labelling) (k : StmtKept)
        → IsLentOf a ls (Some node.now) k result }
{
    match node {
        Node::Try(guarded) => StmtRow::Catch(scope, guarded),
        _ => StmtRow::Free,
    }
}

// A for-in of this variable, behind so many of the names that are kept.
fn kept_names_row<'a>(
    name: Option<&'a JText>,
    body: NodeId,
    labelling: Labelling,
    passed: usize,
    kept: &'a StmtKept,
) -> StmtRow<'a>
    ensures row { (a : Arena) (c : Context) → row_as a c result ≡ rows.kept_names_row a
        (labels_around a labelling) passed (option_copied name.entry) body kept.now }
    ensures held { (a : Arena) → IsHeld a (part_at body) → IsHeld a (row_parts result) }
    ensures lent { (a : Arena) (target value : NodeId)
        → option_copied name.entry ≡ syntax.name_of_target (tree_at a target)
        → IsLentOf a labelling (Some (Node.ForIn target value body)) kept.now result }
{
    let Some(name) = name else {
        return StmtRow::Free;
    };
    match kept {
        StmtKept::Names { object, names } => StmtRow::ForInNames {
            parts: ForInParts {
                name,
                body,
                labelling,
            },
            object,
            names: names.as_slice(),
            passed,
        },
        _ => StmtRow::Free,
    }
}

// A for-in behind so many of its names.
fn names_row<'a>(
    script: &'a Script,
    node: &'a Node,
    labelling: Labelling,
    passed: usize,
    kept: &'a StmtKept,
) -> StmtRow<'a>
    requires { IsWithin (length script.now.kept) (length script.now.pending) (parts_of node.now) }
    ensures row { (c : Context) → row_as script.now c result ≡ rows.names_row script.now
        (labels_around script.now labelling) passed node.now kept.now }
    ensures held { IsHeld script.now (parts_of node.now) → IsHeld script.now (row_parts result) }
    ensures lent { IsLentOf script.now labelling (Some node.now) kept.now result }
{
    match node {
        Node::ForIn { target, body, .. } => kept_names_row(
            named_target(script, *target),
            *body,
            labelling,
            passed,
            kept,
        ),
        _ => StmtRow::Free,
    }
}

// The completion that is kept, and the object that `new` made.
fn kept_completion(kept: &StmtKept) -> Option<&Completion>
    ensures { option_copied result ≡ rows.kept_completion kept.now }
{
    match kept {
        StmtKept::Completion(completion) => Some(completion),
        _ => None,
    }
}

fn kept_object(kept: &StmtKept) -> Option<&Value>
    ensures { option_copied result ≡ rows.kept_object kept.now }
{
    match kept {
        StmtKept::Made(object) => Some(object),
        _ => None,
    }
}

// In this phase.
fn phase_row<'a>(
    script: &'a Script,
    node: &'a Node,
    labelling: Labelling,
    phase: StmtPhase,
    kept: &'a StmtKept,
) -> StmtRow<'a>
    requires within { IsWithin (length script.now.kept) (length script.now.pending)
        (parts_of node.now) }
    requires held { IsHeld script.now (parts_of node.now) }
    ensures row { (c : Context) → row_as script.now c result ≡ rows.node_row script.now c
        (labels_around script.now labelling) node.now phase kept.now }
    ensures held { IsHeld script.now (row_parts result) }
    ensures lent { IsLentOf script.now labelling (Some node.now) kept.now result }
{
    match phase {
        StmtPhase::Begun => begun_row(script, node, labelling),
        StmtPhase::Declared(at) => declared_row(node, at),
        StmtPhase::LoopStart => loop_in_phase(loop_parts(node, labelling), phase),
        StmtPhase::LoopTest => loop_in_phase(loop_parts(node, labelling), phase),
        StmtPhase::LoopBody => loop_in_phase(loop_parts(node, labelling), phase),
        StmtPhase::LoopUpdate => loop_in_phase(loop_parts(node, labelling), phase),
        StmtPhase::Names(passed) => names_row(script, node, labelling, passed, kept),
        StmtPhase::Case(at) => case_row(node, labelling, at),
        StmtPhase::Clauses => clauses_row(node, labelling),
        StmtPhase::Catch(scope) => catch_row(node, scope),
        StmtPhase::Finally => StmtRow::Finally(kept_completion(kept)),
        StmtPhase::Body => StmtRow::Body(kept_object(kept)),
    }
}

/// The row of a node of a statement in this phase, with what its frame keeps; `outermost` is the
/// outermost labelled statement directly around it, or the node itself. What is no statement has no
/// step.
pub fn stmt_row_of<'a>(
    script: &'a Script,
    id: NodeId,
    outermost: NodeId,
    phase: StmtPhase,
    kept: &'a StmtKept,
) -> StmtRow<'a>
    requires { id.number < length script.now.kept }
    ensures row { (c : Context) → row_as script.now c result
        ≡ rows.row_in script.now c id outermost phase kept.now }
    ensures held { IsHeld script.now (row_parts result) }
    ensures lent { IsLent script.now id outermost kept.now result }
{
    let _nodes = script.count();
    let labelling = Labelling {
        outermost,
        statement: id,
    };
    phase_row(script, script.node(id), labelling, phase, kept)
}
