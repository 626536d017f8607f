// An arena of nodes, as a case writes it.
ghost use Rattle.std.specs.Prelude.{◌≡◌, ℕ, ◌<◌, false, IfOk, IfSome, IsTrue};
ghost use Rattle.js_tree.specs.Arena.{IsWithin};
ghost use Rattle.js_tree.specs.Trees.{elements, nodes, parts, perhaps};

use crate::words::{first_word, number};
use js_tree::{BinaryOperator, Declarator, Entry, Node, NodeId, Script, UnaryOperator};
use mug_text::{Listed, NoMemory};
use std::alloc::Global;
use written_text::written_text;

/// The arena of the nodes that are written one behind the other, with `;` between them. A node that
/// names what isn't before it is an empty statement.
pub fn script_of(alloc: Global, written: &str) -> Result<Script, NoMemory> {
    let mut script = Script::new(alloc);
    for part in written.split(';') {
        add(alloc, &mut script, part)?;
    }
    Ok(script)
}

fn add(alloc: Global, script: &mut Script, written: &str) -> Result<(), NoMemory> {
    let count = script.count();
    let node = node(alloc, count, written.trim())?;
    let at = number(written);
    script.add(node, at, at)?;
    Ok(())
}

// The node of this number, if there are more than so many.
fn part(count: usize, written: &str) -> Option<NodeId>
    ensures { IfSome result (λ id. id.number < count) }
{
    let number = number(written);
    if (number as usize) < count {
        Some(NodeId { number })
    } else {
        None
    }
}

// The same, or else the other.
fn part_or(count: usize, written: &str, other: NodeId) -> NodeId
    ensures { other.number < count → result.number < count }
{
    match part(count, written) {
        Some(id) => id,
        None => other,
    }
}

fn numbered(alloc: Global, count: usize, written: &str) -> Result<Listed<NodeId>, NoMemory> {
    let mut ids = Listed::new(alloc);
    for word in written.split_whitespace() {
        if let Some(id) = part(count, word) {
            ids.push(id)?;
        }
    }
    Ok(ids)
}

// Whether each of these is one of so many.
fn are_within(count: usize, ids: &[NodeId]) -> bool
    ensures { IsTrue result → (b : ℕ) → IsWithin count b (nodes ids.now) }
{
    for id in ids {
        if id.number as usize >= count {
            return false;
        }
    }
    true
}

// The nodes of these numbers.
fn nodes_of(alloc: Global, count: usize, written: &str) -> Result<Listed<NodeId>, NoMemory>
    ensures { IfOk result (λ ids. (b : ℕ) → IsWithin count b (nodes ids)) }
{
    let ids = numbered(alloc, count, written)?;
    if are_within(count, ids.as_slice()) {
        Ok(ids)
    } else {
        Ok(Listed::new(alloc))
    }
}

// What is no number of a node is a hole.
fn holed(alloc: Global, count: usize, written: &str) -> Result<Listed<Option<NodeId>>, NoMemory> {
    let mut ids = Listed::new(alloc);
    for word in written.split_whitespace() {
        ids.push(part(count, word))?;
    }
    Ok(ids)
}

fn is_missing(count: usize, id: Option<NodeId>) -> bool
    ensures { result ≡ false → (b : ℕ) → IsWithin count b (perhaps id) }
{
    match id {
        Some(id) => id.number as usize >= count,
        None => false,
    }
}

// Whether each of these that is no hole is one of so many.
fn are_elements(count: usize, ids: &[Option<NodeId>]) -> bool
    ensures { IsTrue result → (b : ℕ) → IsWithin count b (elements ids.now) }
{
    for id in ids {
        if is_missing(count, *id) {
            return false;
        }
    }
    true
}

fn array(alloc: Global, count: usize, written: &str) -> Result<Node, NoMemory>
    ensures { IfOk result (λ n. (b : ℕ) → IsWithin count b (parts n)) }
{
    let ids = holed(alloc, count, written)?;
    if are_elements(count, ids.as_slice()) {
        Ok(Node::Array(ids))
    } else {
        Ok(Node::Empty)
    }
}

// A leaf, or an expression or a statement of what stands before.
fn node(alloc: Global, count: usize, written: &str) -> Result<Node, NoMemory>
    ensures { IfOk result (λ n. (b : ℕ) → IsWithin count b (parts n)) }
{
    let (word, rest) = first_word(written);
    match word {
        "number" => Ok(Node::Number(rest.parse().unwrap_or(0))),
        "text" => Ok(Node::Text(written_text(alloc, rest)?)),
        "name" => Ok(Node::Name(written_text(alloc, rest)?)),
        "null" => Ok(Node::Null),
        "true" => Ok(Node::Bool(true)),
        "array" => array(alloc, count, rest),
        "block" => Ok(Node::Block(nodes_of(alloc, count, rest)?)),
        "var" => variables(alloc, count, rest),
        "object" => object(alloc, count, rest),
        _ => node_above(alloc, count, word, rest),
    }
}

// A `var` of two names, of which the second has the value.
fn variables(alloc: Global, count: usize, written: &str) -> Result<Node, NoMemory>
    ensures { IfOk result (λ n. (b : ℕ) → IsWithin count b (parts n)) }
{
    let (name, rest) = first_word(written);
    let name = written_text(alloc, name)?;
    let mut list = Listed::new(alloc);
    let first = Declarator {
        name: name.copy()?,
        value: None,
    };
    let second = Declarator {
        name,
        value: part(count, rest),
    };
    list.push(first)?;
    list.push(second)?;
    Ok(Node::Var(list))
}

// An object of one property.
fn object(alloc: Global, count: usize, written: &str) -> Result<Node, NoMemory>
    ensures { IfOk result (λ n. (b : ℕ) → IsWithin count b (parts n)) }
{
    let (key, rest) = first_word(written);
    let Some(value) = part(count, rest) else {
        return Ok(Node::Empty);
    };
    let mut entries = Listed::new(alloc);
    let entry = Entry {
        key: written_text(alloc, key)?,
        value,
    };
    entries.push(entry)?;
    Ok(Node::Object(entries))
}

// A node of one or two that stand before.
fn node_above(alloc: Global, count: usize, word: &str, written: &str) -> Result<Node, NoMemory>
    ensures { IfOk result (λ n. (b : ℕ) → IsWithin count b (parts n)) }
{
    let (first, rest) = first_word(written);
    let Some(left) = part(count, first) else {
        return Ok(Node::Empty);
    };
    match word {
        "member" => {
            let key = written_text(alloc, rest)?;
            Ok(Node::Member { object: left, key })
        }
        "call" => {
            let arguments = nodes_of(alloc, count, rest)?;
            Ok(Node::Call {
                callee: left,
                arguments,
            })
        }
        _ => Ok(node_of(word, left, part_or(count, rest, left))),
    }
}

// A node of one or of two others.
fn node_of(word: &str, left: NodeId, right: NodeId) -> Node
    ensures { (n b : ℕ) → left.number < n → right.number < n → IsWithin n b (parts result) }
{
    match word {
        "index" => Node::Index {
            object: left,
            key: right,
        },
        "add" => Node::Binary {
            operator: BinaryOperator::Add,
            left,
            right,
        },
        "and" => Node::And { left, right },
        "delete" => Node::Unary {
            operator: UnaryOperator::Delete,
            operand: left,
        },
        "typeof" => Node::Unary {
            operator: UnaryOperator::TypeOf,
            operand: left,
        },
        "not" => Node::Unary {
            operator: UnaryOperator::Not,
            operand: left,
        },
        _ => statement_of(word, left, right),
    }
}

// A statement of one or of two others, or an assignment.
fn statement_of(word: &str, left: NodeId, right: NodeId) -> Node
    ensures { (n b : ℕ) → left.number < n → right.number < n → IsWithin n b (parts result) }
{
    match word {
        "assign" => Node::Assign {
            operator: None,
            target: left,
            value: right,
        },
        "increase" => Node::Assign {
            operator: Some(BinaryOperator::Add),
            target: left,
            value: right,
        },
        "expression" => Node::Expression(left),
        "throw" => Node::Throw(left),
        "return" => Node::Return(Some(left)),
        "if" => Node::If {
            test: left,
            then: right,
            otherwise: None,
        },
        _ => Node::Empty,
    }
}
