// The row of a node.
ghost use Rattle.std.specs.Prelude.{◌≡◌, ◌<◌, Some, length};
ghost use Rattle.std.specs.Option.{option_map};
ghost use Rattle.js_tree.specs.Arena.{Arena, IsWithin};
ghost use Rattle.js_tree.specs.Trees.{parts};
ghost use Rattle.js_operands.specs.ArenaRows as table;
ghost use Rattle.js_operands.specs.ExprMoves as moves;
ghost use Rattle.js_operands.specs.ExprMoves.{row_as};

use crate::{ExprRow, Phase, Side};
use js_tree::{BinaryOperator, Node, NodeId, Script, UnaryOperator, UpdateOperator};

fn call_row<'a>(callee: &'a Node, arguments: &'a [NodeId]) -> ExprRow<'a>
    ensures { (a : Arena) → row_as a result
        ≡ table.call_row_of a (Some callee.now) arguments.now }
{
    match callee {
        Node::Member { key, .. } => ExprRow::CallMember(key, arguments),
        Node::Index { .. } => ExprRow::CallIndex(arguments),
        _ => ExprRow::Call,
    }
}

fn assign_row(target: &Node) -> Option<ExprRow<'_>>
    ensures { (a : Arena) → option_map (row_as a) result
        ≡ table.assign_row_of a (Some target.now) }
{
    match target {
        Node::Name(name) => Some(ExprRow::AssignName(name)),
        Node::Member { key, .. } => Some(ExprRow::AssignMember(key)),
        Node::Index { .. } => Some(ExprRow::AssignIndex),
        _ => None,
    }
}

fn revise_row(operator: BinaryOperator, target: &Node, right: NodeId) -> Option<ExprRow<'_>>
    ensures { (a : Arena) → option_map (row_as a) result
        ≡ table.revise_row_of a operator (Some target.now) right }
{
    match target {
        Node::Name(name) => Some(ExprRow::ReviseName(operator, name, right)),
        Node::Member { key, .. } => Some(ExprRow::ReviseMember(operator, key, right)),
        Node::Index { .. } => Some(ExprRow::ReviseIndex(operator, right)),
        _ => None,
    }
}

fn assignment_row(
    operator: Option<BinaryOperator>,
    target: &Node,
    right: NodeId,
) -> Option<ExprRow<'_>>
    ensures { (a : Arena) → option_map (row_as a) result
        ≡ table.assignment_row_of a operator (Some target.now) right }
{
    match operator {
        Some(operator) => revise_row(operator, target, right),
        None => assign_row(target),
    }
}

fn update_row(operator: UpdateOperator, side: Side, target: &Node) -> Option<ExprRow<'_>>
    ensures { (a : Arena) → option_map (row_as a) result
        ≡ table.update_row_of a operator side (Some target.now) }
{
    match target {
        Node::Name(name) => Some(ExprRow::UpdateName(operator, side, name)),
        Node::Member { key, .. } => Some(ExprRow::UpdateMember(operator, side, key)),
        Node::Index { .. } => Some(ExprRow::UpdateIndex(operator, side)),
        _ => None,
    }
}

fn type_row(operand: &Node) -> ExprRow<'_>
    ensures { (a : Arena) → row_as a result ≡ table.type_row_of a (Some operand.now) }
{
    match operand {
        Node::Name(name) => ExprRow::TypeOfName(name),
        _ => ExprRow::Unary(UnaryOperator::TypeOf),
    }
}

fn delete_row(operand: &Node) -> ExprRow<'_>
    ensures { (a : Arena) → row_as a result ≡ table.delete_row_of a (Some operand.now) }
{
    match operand {
        Node::Member { key, .. } => ExprRow::DeleteMember(key),
        Node::Index { .. } => ExprRow::DeleteIndex,
        _ => ExprRow::Unary(UnaryOperator::Delete),
    }
}

fn unary_row(operator: UnaryOperator, operand: &Node) -> ExprRow<'_>
    ensures { (a : Arena) → row_as a result ≡ table.unary_row_of a operator (Some operand.now) }
{
    match operator {
        UnaryOperator::TypeOf => type_row(operand),
        UnaryOperator::Delete => delete_row(operand),
        _ => ExprRow::Unary(operator),
    }
}

// The row of a node that has made no step; none of what is no expression, and of a literal.
fn begun_row<'a>(script: &'a Script, id: NodeId, node: &'a Node) -> Option<ExprRow<'a>>
    requires there { id.number < length script.now.kept }
    requires within { IsWithin id.number (length script.now.pending) (parts node.now) }
    ensures { option_map (row_as script.now) result ≡ table.node_row script.now node.now }
{
    match node {
        Node::This => Some(ExprRow::This),
        Node::Name(name) => Some(ExprRow::Name(name)),
        Node::Array(elements) => Some(ExprRow::Array(elements.as_slice())),
        Node::Object(entries) => Some(ExprRow::Object(entries.as_slice())),
        Node::Function { .. } => Some(ExprRow::Function),
        Node::Member { key, .. } => Some(ExprRow::Member(key)),
        Node::Index { .. } => Some(ExprRow::Index),
        Node::Call { callee, arguments } => {
            Some(call_row(script.node(*callee), arguments.as_slice()))
        }
        Node::New { .. } => Some(ExprRow::New),
        Node::Postfix { operator, target } => {
            update_row(*operator, Side::Behind, script.node(*target))
        }
        Node::Prefix { operator, target } => {
            update_row(*operator, Side::Before, script.node(*target))
        }
        Node::Unary { operator, operand } => Some(unary_row(*operator, script.node(*operand))),
        Node::Binary { operator, .. } => Some(ExprRow::Binary(*operator)),
        Node::And { right, .. } => Some(ExprRow::And(*right)),
        Node::Or { right, .. } => Some(ExprRow::Or(*right)),
        Node::Conditional {
            then,
            otherwise,
            ..
        } => Some(ExprRow::Conditional(*then, *otherwise)),
        Node::Assign {
            operator,
            target,
            value,
        } => assignment_row(*operator, script.node(*target), *value),
        Node::Comma { right, .. } => Some(ExprRow::Comma(*right)),
        _ => None,
    }
}

// The row behind the step that reads the target of `op=`.
fn computing(row: ExprRow<'_>) -> ExprRow<'_>
    ensures { (a : Arena) → row_as a result ≡ moves.later_row (row_as a row.entry) Phase.Compute }
{
    match row {
        ExprRow::ReviseName(operator, name, _) => ExprRow::ComputeName(operator, name),
        ExprRow::ReviseMember(operator, key, _) => ExprRow::ComputeMember(operator, key),
        ExprRow::ReviseIndex(operator, _) => ExprRow::ComputeIndex(operator),
        _ => row,
    }
}

// The row of the step of `op=` that writes.
fn assigning(row: ExprRow<'_>) -> ExprRow<'_>
    ensures { (a : Arena) → row_as a result ≡ moves.later_row (row_as a row.entry) Phase.Assign }
{
    match row {
        ExprRow::ReviseName(_, name, _) | ExprRow::ComputeName(_, name) => {
            ExprRow::AssignName(name)
        }
        ExprRow::ReviseMember(_, key, _) | ExprRow::ComputeMember(_, key) => {
            ExprRow::AssignMember(key)
        }
        ExprRow::ReviseIndex(_, _) | ExprRow::ComputeIndex(_) => ExprRow::AssignIndex,
        _ => row,
    }
}

// The row of the step of `++` or `--` that writes.
fn storing(row: ExprRow<'_>) -> ExprRow<'_>
    ensures { (a : Arena) → row_as a result ≡ moves.later_row (row_as a row.entry) Phase.Store }
{
    match row {
        ExprRow::UpdateName(operator, side, name) => ExprRow::StoreName(operator, side, name),
        ExprRow::UpdateMember(operator, side, key) => ExprRow::StoreMember(operator, side, key),
        ExprRow::UpdateIndex(operator, side) => ExprRow::StoreIndex(operator, side),
        _ => row,
    }
}

/// The row of a node in a later phase.
pub fn later_row(row: ExprRow<'_>, phase: Phase) -> ExprRow<'_>
    ensures { (a : Arena) → row_as a result ≡ moves.later_row (row_as a row.entry) phase }
{
    match phase {
        Phase::Begun => row,
        Phase::CallOn => ExprRow::CallOn,
        Phase::Compute => computing(row),
        Phase::Assign => assigning(row),
        Phase::Store => storing(row),
        Phase::Convert(hint) => ExprRow::Convert(hint),
        Phase::Converting(left) => ExprRow::Converting(left),
    }
}

/// The row of a node in a phase; none of what is no expression, and of a literal.
pub fn expr_row_of(script: &Script, id: NodeId, phase: Phase) -> Option<ExprRow<'_>>
    requires { id.number < length script.now.kept }
    ensures { option_map (row_as script.now) result ≡ table.row_in script.now id phase }
{
    let row = begun_row(script, id, script.node(id))?;
    Some(later_row(row, phase))
}
