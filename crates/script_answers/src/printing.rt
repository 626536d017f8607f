// How a tree is printed.
use crate::productions::production_of;
use js_tree::{BodyId, Case, Catch, Declarator, Entry, Guarded, Node, NodeId, Script};
use mug_text::{JText, NoMemory};
use std::alloc::Global;

// What is still to be printed.
#[derive(Drop)]
enum Task {
    Node(NodeId),
    Text(JText),
    Missing,
    // A list begins, and ends.
    Open,
    Close,
}

/// Appends a node as its production, its span and its parts, a text in quotes, a part that isn't
/// there as `-`.
pub(crate) fn show(
    alloc: Global,
    script: &Script,
    root: NodeId,
    out: &mut Vec<u8>,
) -> Result<(), NoMemory> {
    let mut tasks = Vec::new(alloc);
    tasks.push(Task::Node(root))?;
    for _ in 0..usize::MAX {
        match tasks.pop() {
            Some(task) => show_task(alloc, script, task, &mut tasks, out)?,
            None => return Ok(()),
        }
    }
    Ok(())
}

fn show_task(
    alloc: Global,
    script: &Script,
    task: Task,
    tasks: &mut Vec<Task>,
    out: &mut Vec<u8>,
) -> Result<(), NoMemory> {
    match task {
        Task::Node(id) => show_node(alloc, script, id, tasks, out),
        Task::Text(text) => show_text(&text, out),
        Task::Missing => show_item(b"-", out),
        Task::Open => show_item(b"[", out),
        Task::Close => Ok(out.extend_from_slice(b"]")?),
    }
}

// An item stands behind a space, but for the first of a list and of the line.
fn show_item(item: &[u8], out: &mut Vec<u8>) -> Result<(), NoMemory> {
    match out.as_slice().last() {
        None | Some(b'[' | b' ') => {}
        Some(_) => out.push(b' ')?,
    }
    Ok(out.extend_from_slice(item)?)
}

fn show_text(text: &JText, out: &mut Vec<u8>) -> Result<(), NoMemory> {
    show_item(b"'", out)?;
    text.shown(out)?;
    Ok(out.extend_from_slice(b"'")?)
}

fn show_node(
    alloc: Global,
    script: &Script,
    id: NodeId,
    tasks: &mut Vec<Task>,
    out: &mut Vec<u8>,
) -> Result<(), NoMemory> {
    if id.number as usize >= script.count() {
        return Ok(());
    }
    let node = script.node(id);
    let (from, to) = script.span(id);
    let production = production_of(node);
    let head = format!(in alloc; "{production:?}@{from}-{to}[")?;
    show_item(head.as_bytes(), out)?;
    let mut parts = Vec::new(alloc);
    push_statement_parts(script, node, &mut parts)?;
    push_expression_parts(script, node, &mut parts)?;
    parts.push(Task::Close)?;
    put_back(parts, tasks)
}

// The parts come next, the first one first.
fn put_back(mut parts: Vec<Task>, tasks: &mut Vec<Task>) -> Result<(), NoMemory> {
    for _ in 0..usize::MAX {
        match parts.pop() {
            Some(task) => tasks.push(task)?,
            None => return Ok(()),
        }
    }
    Ok(())
}

fn push_expression_parts(
    script: &Script,
    node: &Node,
    parts: &mut Vec<Task>,
) -> Result<(), NoMemory> {
    match node {
        Node::Name(text) | Node::Text(text) => push_text(text, parts),
        Node::Array(elements) => push_options(elements.as_slice(), parts),
        Node::Object(entries) => push_entries(entries.as_slice(), parts),
        Node::Function { head, body } => {
            push_label(head.name.as_ref(), parts)?;
            push_words(head.parameters.as_slice(), parts)?;
            push_body(script, *body, parts)
        }
        Node::Member { object, key } => {
            push_node(*object, parts)?;
            push_text(key, parts)
        }
        Node::Index { object, key } => push_two(*object, *key, parts),
        Node::Call { callee, arguments } | Node::New { callee, arguments } => {
            push_node(*callee, parts)?;
            push_nodes(arguments.as_slice(), parts)
        }
        Node::Postfix { target, .. } | Node::Prefix { target, .. } => push_node(*target, parts),
        Node::Unary { operand, .. } => push_node(*operand, parts),
        Node::Binary { left, right, .. }
        | Node::And { left, right }
        | Node::Or { left, right }
        | Node::Comma { left, right } => push_two(*left, *right, parts),
        Node::Conditional {
            test,
            then,
            otherwise,
        } => {
            push_two(*test, *then, parts)?;
            push_node(*otherwise, parts)
        }
        Node::Assign { target, value, .. } => push_two(*target, *value, parts),
        _ => Ok(()),
    }
}

fn push_statement_parts(
    script: &Script,
    node: &Node,
    parts: &mut Vec<Task>,
) -> Result<(), NoMemory> {
    match node {
        Node::Block(statements)
        | Node::Program { statements, .. }
        | Node::Handler { statements, .. }
        | Node::Body { statements, .. } => push_nodes(statements.as_slice(), parts),
        Node::Var(declarators) => push_declarators(declarators.as_slice(), parts),
        Node::Expression(value) | Node::Throw(value) => push_node(*value, parts),
        Node::If {
            test,
            then,
            otherwise,
        } => {
            push_two(*test, *then, parts)?;
            push_option(*otherwise, parts)
        }
        Node::DoWhile { body, test } => push_two(*body, *test, parts),
        Node::While { test, body } => push_two(*test, *body, parts),
        Node::For {
            start,
            test,
            update,
            body,
        } => {
            push_option(*start, parts)?;
            push_option(*test, parts)?;
            push_option(*update, parts)?;
            push_node(*body, parts)
        }
        Node::ForIn {
            target,
            object,
            body,
        } => {
            push_two(*target, *object, parts)?;
            push_node(*body, parts)
        }
        Node::Continue(label) | Node::Break(label) => push_label(label.as_ref(), parts),
        Node::Return(value) => push_option(*value, parts),
        Node::Labelled { label, body } => {
            push_text(label, parts)?;
            push_node(*body, parts)
        }
        Node::Switch { value, cases } => {
            push_node(*value, parts)?;
            push_cases(cases.as_slice(), parts)
        }
        Node::Try(guarded) => push_guarded(guarded, parts),
        Node::Declaration { head, body } => {
            push_text(&head.name, parts)?;
            push_words(head.parameters.as_slice(), parts)?;
            push_body(script, *body, parts)
        }
        _ => Ok(()),
    }
}

fn push_node(id: NodeId, parts: &mut Vec<Task>) -> Result<(), NoMemory> {
    parts.push(Task::Node(id))?;
    Ok(())
}

fn push_two(left: NodeId, right: NodeId, parts: &mut Vec<Task>) -> Result<(), NoMemory> {
    push_node(left, parts)?;
    push_node(right, parts)
}

fn push_option(id: Option<NodeId>, parts: &mut Vec<Task>) -> Result<(), NoMemory> {
    match id {
        Some(id) => push_node(id, parts),
        None => Ok(parts.push(Task::Missing)?),
    }
}

fn push_text(text: &JText, parts: &mut Vec<Task>) -> Result<(), NoMemory> {
    parts.push(Task::Text(text.copy()?))?;
    Ok(())
}

fn push_label(label: Option<&JText>, parts: &mut Vec<Task>) -> Result<(), NoMemory> {
    match label {
        Some(label) => push_text(label, parts),
        None => Ok(parts.push(Task::Missing)?),
    }
}

fn push_body(script: &Script, id: BodyId, parts: &mut Vec<Task>) -> Result<(), NoMemory> {
    if id.number as usize >= script.pending().len() {
        return Ok(());
    }
    push_option(script.body(id), parts)
}

fn push_nodes(ids: &[NodeId], parts: &mut Vec<Task>) -> Result<(), NoMemory> {
    parts.push(Task::Open)?;
    for id in ids {
        push_node(*id, parts)?;
    }
    Ok(parts.push(Task::Close)?)
}

fn push_options(ids: &[Option<NodeId>], parts: &mut Vec<Task>) -> Result<(), NoMemory> {
    parts.push(Task::Open)?;
    for id in ids {
        push_option(*id, parts)?;
    }
    Ok(parts.push(Task::Close)?)
}

fn push_words(words: &[JText], parts: &mut Vec<Task>) -> Result<(), NoMemory> {
    parts.push(Task::Open)?;
    for word in words {
        push_text(word, parts)?;
    }
    Ok(parts.push(Task::Close)?)
}

fn push_entries(entries: &[Entry], parts: &mut Vec<Task>) -> Result<(), NoMemory> {
    parts.push(Task::Open)?;
    for entry in entries {
        push_named(&entry.key, Some(entry.value), parts)?;
    }
    Ok(parts.push(Task::Close)?)
}

fn push_declarators(declarators: &[Declarator], parts: &mut Vec<Task>) -> Result<(), NoMemory> {
    parts.push(Task::Open)?;
    for declarator in declarators {
        push_named(&declarator.name, declarator.value, parts)?;
    }
    Ok(parts.push(Task::Close)?)
}

fn push_named(name: &JText, value: Option<NodeId>, parts: &mut Vec<Task>) -> Result<(), NoMemory> {
    parts.push(Task::Open)?;
    push_text(name, parts)?;
    push_option(value, parts)?;
    Ok(parts.push(Task::Close)?)
}

fn push_cases(cases: &[Case], parts: &mut Vec<Task>) -> Result<(), NoMemory> {
    parts.push(Task::Open)?;
    for case in cases {
        parts.push(Task::Open)?;
        push_option(case.test, parts)?;
        push_nodes(case.statements.as_slice(), parts)?;
        parts.push(Task::Close)?;
    }
    Ok(parts.push(Task::Close)?)
}

fn push_guarded(guarded: &Guarded, parts: &mut Vec<Task>) -> Result<(), NoMemory> {
    push_nodes(guarded.block.as_slice(), parts)?;
    match &guarded.catch {
        Some(catch) => push_catch(catch, parts)?,
        None => parts.push(Task::Missing)?,
    }
    match &guarded.finally {
        Some(statements) => push_nodes(statements.as_slice(), parts),
        None => Ok(parts.push(Task::Missing)?),
    }
}

fn push_catch(catch: &Catch, parts: &mut Vec<Task>) -> Result<(), NoMemory> {
    parts.push(Task::Open)?;
    push_text(&catch.name, parts)?;
    push_nodes(catch.statements.as_slice(), parts)?;
    Ok(parts.push(Task::Close)?)
}
