// The texts in statements, without recursion over their depth: what is still to be looked at stands on a stack, the next on top.
ghost use Rattle.std.specs.Prelude.{◌≡◌, ℕ, true, false, List, ◌∷◌, ◌++◌, reverse, length, IfOk, OnOk};
ghost use Rattle.js_tree.specs.Trees.{Tree, Part, Holds, at_last, cases, caught, declarators, elements, entries, nodes, perhaps, three, two, one, at, Word};
ghost use Rattle.js_tree.specs.Names.{texts_in};
ghost use Rattle.js_tree.specs.Arena.{IsWithin};
ghost use Rattle.js_tree.specs.Walk.{inside, inside_expression, inside_statement, items_in, opened, part_of, test_of, text_of, wants_variables};

use crate::node::{Case, Catch, Declarator, Entry, Guarded, Node, NodeId};
use crate::script::Script;
use mug_text::{JText, Listed, NoMemory};
use std::alloc::Global;

/// What is still to be looked at: a node, or a text that is wanted.
#[derive(Debug, Drop)]
pub(crate) enum Item {
    At(NodeId),
    Word(JText),
}

/// Which texts are wanted: those of `var`, or those that name variables.
#[derive(Clone, Copy, Debug, PartialEq, Eq)]
pub(crate) enum Wanted {
    Vars,
    Variables,
}

fn push_node(stack: &mut Vec<Item>, id: NodeId) -> Result<(), NoMemory>
    ensures { OnOk result (reverse stack.new.items ≡ items_in false (at id) ++ reverse stack.old.items) }
{
    stack.reserve(1)?;
    stack.push_reserved(Item::At(id));
    Ok(())
}

fn push_text(stack: &mut Vec<Item>, text: &JText) -> Result<(), NoMemory>
    ensures { OnOk result (reverse stack.new.items ≡ items_in true (Word text.now) ++ reverse stack.old.items) }
{
    let text = text.copy()?;
    stack.reserve(1)?;
    stack.push_reserved(Item::Word(text));
    Ok(())
}

// A name that is wanted where all variables are.
fn push_name(stack: &mut Vec<Item>, name: &JText, wanted: Wanted) -> Result<(), NoMemory>
    ensures { OnOk result (reverse stack.new.items ≡ items_in (wants_variables wanted) (one (Word name.now)) ++ reverse stack.old.items) }
{
    match wanted {
        Wanted::Vars => Ok(()),
        Wanted::Variables => push_text(stack, name),
    }
}

fn push_option(stack: &mut Vec<Item>, id: Option<NodeId>) -> Result<(), NoMemory>
    ensures { OnOk result (reverse stack.new.items ≡ items_in false (perhaps id) ++ reverse stack.old.items) }
{
    match id {
        Some(id) => push_node(stack, id),
        None => Ok(()),
    }
}

fn push_nodes(stack: &mut Vec<Item>, ids: &[NodeId]) -> Result<(), NoMemory>
    ensures { OnOk result (reverse stack.new.items ≡ items_in false (nodes ids.now) ++ reverse stack.old.items) }
{
    let mut at = ids.len();
    while at > 0 {
        at -= 1;
        push_node(stack, ids[at])?;
    }
    Ok(())
}

fn push_options(stack: &mut Vec<Item>, ids: &[Option<NodeId>]) -> Result<(), NoMemory>
    ensures { OnOk result (reverse stack.new.items ≡ items_in false (elements ids.now) ++ reverse stack.old.items) }
{
    let mut at = ids.len();
    while at > 0 {
        at -= 1;
        push_option(stack, ids[at])?;
    }
    Ok(())
}

fn push_entries(stack: &mut Vec<Item>, list: &[Entry]) -> Result<(), NoMemory>
    ensures { OnOk result (reverse stack.new.items ≡ items_in false (entries list.now) ++ reverse stack.old.items) }
{
    let mut at = list.len();
    while at > 0 {
        at -= 1;
        push_node(stack, list[at].value)?;
    }
    Ok(())
}

fn push_declarator(stack: &mut Vec<Item>, declarator: &Declarator) -> Result<(), NoMemory>
    ensures { OnOk result (reverse stack.new.items ≡ items_in true (two (Word declarator.now.name) (perhaps declarator.now.value)) ++ reverse stack.old.items) }
{
    push_option(stack, declarator.value)?;
    push_text(stack, &declarator.name)
}

fn push_declarators(stack: &mut Vec<Item>, list: &[Declarator]) -> Result<(), NoMemory>
    ensures { OnOk result (reverse stack.new.items ≡ items_in true (declarators list.now) ++ reverse stack.old.items) }
{
    let mut at = list.len();
    while at > 0 {
        at -= 1;
        push_declarator(stack, &list[at])?;
    }
    Ok(())
}

fn push_case(stack: &mut Vec<Item>, case: &Case) -> Result<(), NoMemory>
    ensures { OnOk result (reverse stack.new.items ≡ items_in false (two (perhaps case.now.test) (nodes case.now.statements)) ++ reverse stack.old.items) }
{
    push_nodes(stack, case.statements.as_slice())?;
    push_option(stack, case.test)
}

fn push_cases(stack: &mut Vec<Item>, list: &[Case]) -> Result<(), NoMemory>
    ensures { OnOk result (reverse stack.new.items ≡ items_in false (cases list.now) ++ reverse stack.old.items) }
{
    let mut at = list.len();
    while at > 0 {
        at -= 1;
        push_case(stack, &list[at])?;
    }
    Ok(())
}

fn push_catch(stack: &mut Vec<Item>, catch: &Option<Catch>, wanted: Wanted) -> Result<(), NoMemory>
    ensures { OnOk result (reverse stack.new.items ≡ items_in (wants_variables wanted) (caught catch.now) ++ reverse stack.old.items) }
{
    match catch {
        Some(clause) => {
            push_nodes(stack, clause.statements.as_slice())?;
            push_name(stack, &clause.name, wanted)
        }
        None => Ok(()),
    }
}

fn push_last(stack: &mut Vec<Item>, finally: &Option<Listed<NodeId>>) -> Result<(), NoMemory>
    ensures { OnOk result (reverse stack.new.items ≡ items_in false (at_last finally.now) ++ reverse stack.old.items) }
{
    match finally {
        Some(statements) => push_nodes(stack, statements.as_slice()),
        None => Ok(()),
    }
}

// What stands in a statement, the first on top; nothing of another node.
fn push_in_statement(stack: &mut Vec<Item>, node: &Node, wanted: Wanted) -> Result<(), NoMemory>
    ensures { OnOk result (reverse stack.new.items ≡ inside_statement wanted node.now ++ reverse stack.old.items) }
{
    match node {
        Node::Block(statements) => push_nodes(stack, statements.as_slice()),
        Node::Var(list) => push_declarators(stack, list.as_slice()),
        Node::Expression(expression) => push_node(stack, *expression),
        Node::If {
            test,
            then,
            otherwise,
        } => push_options(stack, &[Some(*test), Some(*then), *otherwise]),
        Node::DoWhile { body, test } => push_nodes(stack, &[*body, *test]),
        Node::While { test, body } => push_nodes(stack, &[*test, *body]),
        Node::For {
            start,
            test,
            update,
            body,
        } => push_options(stack, &[*start, *test, *update, Some(*body)]),
        Node::ForIn {
            target,
            object,
            body,
        } => push_nodes(stack, &[*target, *object, *body]),
        Node::Return(value) => push_option(stack, *value),
        Node::Labelled { body, .. } => push_node(stack, *body),
        Node::Switch { value, cases } => push_switch(stack, *value, cases.as_slice()),
        Node::Throw(value) => push_node(stack, *value),
        Node::Try(guarded) => push_guarded(stack, guarded, wanted),
        Node::Program { statements, .. } => push_nodes(stack, statements.as_slice()),
        Node::Handler { statements, .. } => push_nodes(stack, statements.as_slice()),
        Node::Body { statements, .. } => push_nodes(stack, statements.as_slice()),
        _ => Ok(()),
    }
}

fn push_switch(stack: &mut Vec<Item>, value: NodeId, list: &[Case]) -> Result<(), NoMemory>
    ensures { OnOk result (reverse stack.new.items ≡ items_in false (two (at value) (cases list.now)) ++ reverse stack.old.items) }
{
    push_cases(stack, list)?;
    push_node(stack, value)
}

fn push_guarded(stack: &mut Vec<Item>, guarded: &Guarded, wanted: Wanted) -> Result<(), NoMemory>
    ensures { OnOk result (reverse stack.new.items ≡ items_in (wants_variables wanted) (three (nodes guarded.now.block) (caught guarded.now.catch) (at_last guarded.now.finally)) ++ reverse stack.old.items) }
{
    push_last(stack, &guarded.finally)?;
    push_catch(stack, &guarded.catch, wanted)?;
    push_nodes(stack, guarded.block.as_slice())
}

// What stands in an expression, the first on top; nothing of another node.
fn push_in_expression(stack: &mut Vec<Item>, node: &Node, wanted: Wanted) -> Result<(), NoMemory>
    ensures { OnOk result (reverse stack.new.items ≡ inside_expression wanted node.now ++ reverse stack.old.items) }
{
    match node {
        Node::Name(name) => push_name(stack, name, wanted),
        Node::Array(ids) => push_options(stack, ids.as_slice()),
        Node::Object(list) => push_entries(stack, list.as_slice()),
        Node::Member { object, .. } => push_node(stack, *object),
        Node::Index { object, key } => push_nodes(stack, &[*object, *key]),
        Node::Call { callee, arguments } => push_call(stack, *callee, arguments.as_slice()),
        Node::New { callee, arguments } => push_call(stack, *callee, arguments.as_slice()),
        Node::Postfix { target, .. } => push_node(stack, *target),
        Node::Prefix { target, .. } => push_node(stack, *target),
        Node::Unary { operand, .. } => push_node(stack, *operand),
        Node::Binary { left, right, .. } => push_nodes(stack, &[*left, *right]),
        Node::And { left, right } => push_nodes(stack, &[*left, *right]),
        Node::Or { left, right } => push_nodes(stack, &[*left, *right]),
        Node::Conditional {
            test,
            then,
            otherwise,
        } => push_nodes(stack, &[*test, *then, *otherwise]),
        Node::Assign { target, value, .. } => push_nodes(stack, &[*target, *value]),
        Node::Comma { left, right } => push_nodes(stack, &[*left, *right]),
        _ => Ok(()),
    }
}

fn push_call(stack: &mut Vec<Item>, callee: NodeId, arguments: &[NodeId]) -> Result<(), NoMemory>
    ensures { OnOk result (reverse stack.new.items ≡ items_in false (two (at callee) (nodes arguments.now)) ++ reverse stack.old.items) }
{
    push_nodes(stack, arguments)?;
    push_node(stack, callee)
}

// What stands in a node, the first on top.
fn push_inside(stack: &mut Vec<Item>, node: &Node, wanted: Wanted) -> Result<(), NoMemory>
    ensures { OnOk result (reverse stack.new.items ≡ inside wanted node.now ++ reverse stack.old.items) }
{
    push_in_statement(stack, node, wanted)?;
    push_in_expression(stack, node, wanted)
}

impl Script {
    // Looks at the item that stood on top.
    fn look_at(
        &self,
        item: Item,
        stack: &mut Vec<Item>,
        found: &mut Vec<JText>,
        wanted: Wanted,
    ) -> Result<(), NoMemory>
        requires { IsWithin (length self.now.kept) (length self.now.pending) (part_of (item ∷ reverse stack.old.items)) }
        ensures within { OnOk result (IsWithin (length self.now.kept) (length self.now.pending) (part_of (reverse stack.new.items))) }
        ensures stack { OnOk result (reverse stack.new.items ≡ opened wanted self.now item ++ reverse stack.old.items) }
        ensures found { OnOk result (found.new.items ≡ found.old.items ++ text_of item) }
    {
        match item {
            Item::At(id) => push_inside(stack, self.node(id), wanted),
            Item::Word(text) => {
                found.reserve(1)?;
                found.push_reserved(text);
                Ok(())
            }
        }
    }

    /// The texts that are wanted in these statements, from left to right, without those of functions in them.
    pub(crate) fn texts_in(
        &self,
        alloc: Global,
        statements: &[NodeId],
        wanted: Wanted,
    ) -> Result<Vec<JText>, NoMemory>
        requires { IsWithin (length self.now.kept) (length self.now.pending) (nodes statements.now) }
        ensures { IfOk result (λ found. (bodies : ℕ → Tree) (t : Tree) → Holds bodies self.now.kept (nodes statements.now) t → found.items ≡ texts_in (test_of wanted) false t) }
    {
        let mut found = Vec::new(alloc);
        let mut stack = Vec::new(alloc);
        push_nodes(&mut stack, statements)?;
        for _ in 0..u64::MAX {
            match stack.pop() {
                Some(item) => self.look_at(item, &mut stack, &mut found, wanted)?,
                None => return Ok(found),
            }
        }
        // No walk takes so many steps.
        Err(NoMemory)
    }
}
