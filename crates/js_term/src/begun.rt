// How a node of a text begins.
ghost use Rattle.std.specs.Prelude.{◌≡◌, ◌<◌, ◌∷◌, [], Some, None, length, IfOk, OnOk};
ghost use Rattle.js_value.specs.declared.number.Num.TheVariants.{Whole};
ghost use Rattle.js_tree.specs.Arena.{IsWithin, node_at};
ghost use Rattle.js_tree.specs.Trees.{parts};
ghost use Rattle.js_term.specs.ArenaOperands as table;
ghost use Rattle.js_term.specs.ArenaOperands.{as_operands, begun_as, node_literal};
ghost use Rattle.js_term.specs.Evaluation.{and_then};

use crate::operands::{Operand, Operands};
use js_tree::{BinaryOperator, Declarator, Entry, Node, NodeId, Script, UnaryOperator};
use js_value::{Num, Value};
use mug_text::NoMemory;
use std::alloc::Global;

/// What a node begins as: its value, where it is a literal (ECMA-262 edition 5.1, 7.8), else its
/// operands, of which none has begun.
#[derive(Drop)]
pub enum Begun {
    Value(Value),
    Operands(Operands),
}

fn push_node(operands: &mut Operands, id: NodeId) -> Result<(), NoMemory>
    ensures { OnOk result (operands.new ≡ and_then (as_operands (id ∷ [])) operands.old) }
{
    operands.push(Operand::Node(id))
}

fn push_nodes(operands: &mut Operands, ids: &[NodeId]) -> Result<(), NoMemory>
    ensures { OnOk result (operands.new ≡ and_then (as_operands ids.now) operands.old) }
{
    for id in ids {
        push_node(operands, *id)?;
    }
    Ok(())
}

// The elements that are no holes.
fn push_elements(operands: &mut Operands, ids: &[Option<NodeId>]) -> Result<(), NoMemory>
    ensures { OnOk result (operands.new
        ≡ and_then (as_operands (table.elements_there ids.now)) operands.old) }
{
    for id in ids {
        push_option(operands, *id)?;
    }
    Ok(())
}

fn push_option(operands: &mut Operands, id: Option<NodeId>) -> Result<(), NoMemory>
    ensures { OnOk result (operands.new
        ≡ and_then (as_operands (table.returned_nodes id)) operands.old) }
{
    match id {
        Some(id) => push_node(operands, id),
        None => Ok(()),
    }
}

fn push_entries(operands: &mut Operands, entries: &[Entry]) -> Result<(), NoMemory>
    ensures { OnOk result (operands.new
        ≡ and_then (as_operands (table.values_of_entries entries.now)) operands.old) }
{
    for entry in entries {
        push_node(operands, entry.value)?;
    }
    Ok(())
}

// The first initialiser.
fn push_initialiser(operands: &mut Operands, list: &[Declarator]) -> Result<(), NoMemory>
    ensures { OnOk result (operands.new
        ≡ and_then (as_operands (table.first_value list.now)) operands.old) }
{
    for declarator in list {
        if let Some(id) = declarator.value {
            return push_node(operands, id);
        }
    }
    Ok(())
}

// A target's own operands.
fn push_target(operands: &mut Operands, target: &Node) -> Result<(), NoMemory>
    ensures { OnOk result (operands.new
        ≡ and_then (as_operands (table.target_nodes (Some target.now))) operands.old) }
{
    match target {
        Node::Member { object, .. } => push_node(operands, *object),
        Node::Index { object, key } => push_nodes(operands, &[*object, *key]),
        _ => Ok(()),
    }
}

// Of a call by a callee and arguments.
fn push_call(
    operands: &mut Operands,
    callee: &Node,
    id: NodeId,
    arguments: &[NodeId],
) -> Result<(), NoMemory>
    ensures { OnOk result (operands.new
        ≡ and_then (as_operands (table.call_nodes (Some callee.now) id arguments.now))
        operands.old) }
{
    match callee {
        Node::Member { object, .. } => push_node(operands, *object),
        Node::Index { object, key } => push_nodes(operands, &[*object, *key]),
        _ => push_all(operands, id, arguments),
    }
}

// A node, and then others.
fn push_all(operands: &mut Operands, id: NodeId, others: &[NodeId]) -> Result<(), NoMemory>
    ensures { OnOk result (operands.new ≡ and_then (as_operands (id ∷ others.now)) operands.old) }
{
    push_node(operands, id)?;
    push_nodes(operands, others)
}

fn push_deleted(operands: &mut Operands, deleted: &Node, id: NodeId) -> Result<(), NoMemory>
    ensures { OnOk result (operands.new
        ≡ and_then (as_operands (table.deleted_nodes (Some deleted.now) id)) operands.old) }
{
    match deleted {
        Node::Member { object, .. } => push_node(operands, *object),
        Node::Index { object, key } => push_nodes(operands, &[*object, *key]),
        _ => push_node(operands, id),
    }
}

fn push_typed(operands: &mut Operands, typed: &Node, id: NodeId) -> Result<(), NoMemory>
    ensures { OnOk result (operands.new
        ≡ and_then (as_operands (table.typed_nodes (Some typed.now) id)) operands.old) }
{
    match typed {
        Node::Name(_) => Ok(()),
        _ => push_node(operands, id),
    }
}

fn push_unary(
    operands: &mut Operands,
    operator: UnaryOperator,
    operand: &Node,
    id: NodeId,
) -> Result<(), NoMemory>
    ensures { OnOk result (operands.new
        ≡ and_then (as_operands (table.unary_nodes operator (Some operand.now) id)) operands.old) }
{
    match operator {
        UnaryOperator::TypeOf => push_typed(operands, operand, id),
        UnaryOperator::Delete => push_deleted(operands, operand, id),
        _ => push_node(operands, id),
    }
}

// Of a simple assignment.
fn push_assigned(operands: &mut Operands, target: &Node, value: NodeId) -> Result<(), NoMemory>
    ensures { OnOk result (operands.new
        ≡ and_then (as_operands (table.assigned_nodes None (Some target.now) value)) operands.old) }
{
    match target {
        Node::Name(_) => push_node(operands, value),
        Node::Member { object, .. } => push_nodes(operands, &[*object, value]),
        Node::Index { object, key } => push_nodes(operands, &[*object, *key, value]),
        _ => Ok(()),
    }
}

fn push_assignment(
    operands: &mut Operands,
    operator: Option<BinaryOperator>,
    target: &Node,
    value: NodeId,
) -> Result<(), NoMemory>
    ensures { OnOk result (operands.new ≡ and_then
        (as_operands (table.assigned_nodes operator (Some target.now) value)) operands.old) }
{
    match operator {
        Some(_) => push_target(operands, target),
        None => push_assigned(operands, target, value),
    }
}

// Of a statement; none of another node.
fn push_of_statement(operands: &mut Operands, node: &Node) -> Result<(), NoMemory>
    ensures { OnOk result (operands.new
        ≡ and_then (as_operands (table.statement_nodes node.now)) operands.old) }
{
    match node {
        Node::Block(statements) => push_nodes(operands, statements.as_slice()),
        Node::Var(list) => push_initialiser(operands, list.as_slice()),
        Node::Expression(expression) => push_node(operands, *expression),
        Node::If { test, .. } => push_node(operands, *test),
        Node::ForIn { object, .. } => push_node(operands, *object),
        Node::Return(value) => push_option(operands, *value),
        Node::Labelled { body, .. } => push_node(operands, *body),
        Node::Switch { value, .. } => push_node(operands, *value),
        Node::Throw(value) => push_node(operands, *value),
        Node::Try(guarded) => push_nodes(operands, guarded.block.as_slice()),
        Node::Program { statements, .. } => push_nodes(operands, statements.as_slice()),
        Node::Handler { statements, .. } => push_nodes(operands, statements.as_slice()),
        Node::Body { statements, .. } => push_nodes(operands, statements.as_slice()),
        _ => Ok(()),
    }
}

// Of a node whose own number is this.
fn push_operands(
    operands: &mut Operands,
    script: &Script,
    id: NodeId,
    node: &Node,
) -> Result<(), NoMemory>
    requires there { id.number < length script.now.kept }
    requires within { IsWithin id.number (length script.now.pending) (parts node.now) }
    ensures { OnOk result (operands.new ≡ and_then
        (as_operands (table.node_operands (node_at script.now) node.now)) operands.old) }
{
    match node {
        Node::Array(elements) => push_elements(operands, elements.as_slice()),
        Node::Object(entries) => push_entries(operands, entries.as_slice()),
        Node::Member { object, .. } => push_node(operands, *object),
        Node::Index { object, key } => push_nodes(operands, &[*object, *key]),
        Node::Call { callee, arguments } => {
            push_call(
                operands,
                script.node(*callee),
                *callee,
                arguments.as_slice(),
            )
        }
        Node::New { callee, arguments } => push_all(operands, *callee, arguments.as_slice()),
        Node::Postfix { target, .. } => push_target(operands, script.node(*target)),
        Node::Prefix { target, .. } => push_target(operands, script.node(*target)),
        Node::Unary { operator, operand } => {
            push_unary(operands, *operator, script.node(*operand), *operand)
        }
        Node::Binary { left, right, .. } => push_nodes(operands, &[*left, *right]),
        Node::And { left, .. } => push_node(operands, *left),
        Node::Or { left, .. } => push_node(operands, *left),
        Node::Conditional { test, .. } => push_node(operands, *test),
        Node::Assign {
            operator,
            target,
            value,
        } => push_assignment(operands, *operator, script.node(*target), *value),
        Node::Comma { left, .. } => push_node(operands, *left),
        _ => push_of_statement(operands, node),
    }
}

// The number, where it is in the profile, as each is of a text that is run.
#[tactic(auto, using(crate::proofs::Profile::profile_same))]
fn number(n: i64) -> Result<Num, NoMemory>
    ensures { IfOk result (λ number. number ≡ Whole n) }
{
    match Num::whole(i128::from(n)) {
        Some(number) => Ok(number),
        None => Err(NoMemory),
    }
}

// A literal's value.
fn literal(node: &Node) -> Result<Option<Value>, NoMemory>
    ensures { IfOk result (λ v. v ≡ node_literal node.now) }
{
    match node {
        Node::Null => Ok(Some(Value::Null)),
        Node::Bool(b) => Ok(Some(Value::Bool(*b))),
        Node::Number(n) => Ok(Some(Value::Num(number(*n)?))),
        Node::Text(text) => Ok(Some(Value::Text(text.copy()?))),
        _ => Ok(None),
    }
}

/// What a node begins as. There is no memory for a number beyond the profile, which no text that is
/// run has.
pub fn begin(alloc: Global, script: &Script, id: NodeId) -> Result<Begun, NoMemory>
    requires { id.number < length script.now.kept }
    ensures { IfOk result (λ b. b ≡ begun_as script.now id) }
{
    let node = script.node(id);
    if let Some(value) = literal(node)? {
        return Ok(Begun::Value(value));
    }
    let mut operands = Operands::new(alloc);
    push_operands(&mut operands, script, id, node)?;
    Ok(Begun::Operands(operands))
}
