// The scope of a call, for statements that a line names.
ghost use Rattle.std.specs.Prelude.{◌<◌, length, IsTrue, IfOk};
ghost use Rattle.js_tree.specs.Trees.{nodes};
ghost use Rattle.js_tree.specs.Arena.{IsWithin};

use js_tree::{
    Braces, Catch, DeclarationHead, Declarator, FunctionHead, Guarded, Node, NodeId, Scope, Script,
};
use mug_text::{JText, Listed, NoMemory};
use std::alloc::Global;
use std::fmt::Write;

/// The scope of a call of a function, which is written as its parameters, its own name and its statements.
pub(crate) fn scope_of(alloc: Global, written: &str) -> Result<String, NoMemory> {
    let Some((parameters, rest)) = written.split_once('|') else {
        return Ok(String::from_str(alloc, "no parameters")?);
    };
    let Some((own, statements)) = rest.split_once('|') else {
        return Ok(String::from_str(alloc, "no own name")?);
    };
    let mut script = Script::new(alloc);
    let ids = statements_of(&mut script, alloc, statements)?;
    let parameters = words(alloc, parameters)?;
    if !are_there(&script, &ids) {
        return Ok(String::from_str(alloc, "no such statement")?);
    }
    if own.is_empty() {
        let scope = script.call_scope(alloc, &parameters, None, &ids)?;
        return shown(alloc, &script, &scope);
    }
    let own = word(alloc, own)?;
    let scope = script.call_scope(alloc, &parameters, Some(&own), &ids)?;
    shown(alloc, &script, &scope)
}

// The names, the functions with their units and nodes, and what else is among the names.
fn shown(alloc: Global, script: &Script, scope: &Scope) -> Result<String, NoMemory> {
    let mut out = String::from_str(alloc, "scope")?;
    for name in scope.names.as_slice() {
        out.push_str(" ")?;
        push_text(alloc, name, &mut out)?;
    }
    for function in scope.functions.as_slice() {
        out.push_str(" | ")?;
        push_text(alloc, &function.name, &mut out)?;
        let at = function.at;
        write!(out, "@{at}")?;
        if let Some(id) = script.function_at(at) {
            let number = id.number;
            write!(out, "={number}")?;
        }
    }
    if scope.has_arguments {
        out.push_str(" | arguments")?;
    }
    if scope.has_own_name {
        out.push_str(" | own")?;
    }
    Ok(out)
}

fn push_text(alloc: Global, text: &JText, out: &mut String) -> Result<(), NoMemory> {
    let mut bytes = Vec::new(alloc);
    text.to_utf8(&mut bytes)?;
    if let Ok(text) = String::from_utf8(bytes) {
        out.push_str(text.as_str())?;
    }
    Ok(())
}

fn word(alloc: Global, written: &str) -> Result<JText, NoMemory> {
    let units: Vec<u16> = written.encode_utf16().collect(alloc)?;
    JText::from_units(alloc, &units)
}

fn words(alloc: Global, written: &str) -> Result<Vec<JText>, NoMemory> {
    let mut words = Vec::new(alloc);
    for part in written.split(' ') {
        if !part.is_empty() {
            words.push(word(alloc, part)?)?;
        }
    }
    Ok(words)
}

fn are_there(script: &Script, ids: &[NodeId]) -> bool
    ensures { IsTrue result → IsWithin (length script.now.kept) (length script.now.pending) (nodes ids.now) }
{
    for id in ids {
        if id.number as usize >= script.count() {
            return false;
        }
    }
    true
}

fn statements_of(
    script: &mut Script,
    alloc: Global,
    written: &str,
) -> Result<Vec<NodeId>, NoMemory> {
    let mut ids = Vec::new(alloc);
    for part in written.split(' ') {
        if let Some((sort, name)) = part.split_once(':') {
            ids.push(statement(script, alloc, sort, name)?)?;
        }
    }
    Ok(ids)
}

// A statement of this sort: `var`, `fn`, `catch`, `label` or `member`; of any other a name.
fn statement(
    script: &mut Script,
    alloc: Global,
    sort: &str,
    name: &str,
) -> Result<NodeId, NoMemory> {
    if sort == "fn" {
        return declaration(script, alloc, name);
    }
    let text = word(alloc, name)?;
    if sort == "var" {
        let mut declarators = Vec::new(alloc);
        let value = None;
        declarators.push(Declarator { name: text, value })?;
        return script.add(Node::Var(Listed::of(declarators)), 0, 0);
    }
    if sort == "catch" {
        return caught(script, alloc, text);
    }
    if sort == "label" {
        let body = script.add(Node::Empty, 0, 0)?;
        return labelled(script, text, body);
    }
    if sort == "member" {
        let object = script.add(Node::This, 0, 0)?;
        return member(script, object, text);
    }
    script.add(Node::Name(text), 0, 0)
}

// A function with a parameter `arguments`, which is written as its name and its first unit.
fn declaration(script: &mut Script, alloc: Global, written: &str) -> Result<NodeId, NoMemory> {
    let (name, at) = written.split_once('@').unwrap_or((written, "0"));
    let from = at.parse().unwrap_or(0);
    let mut parameters = Vec::new(alloc);
    parameters.push(word(alloc, "arguments")?)?;
    let head = DeclarationHead {
        name: word(alloc, name)?,
        parameters: Listed::of(parameters),
    };
    let braces = Braces {
        from: 0,
        to: 0,
        level: 0,
    };
    let head = FunctionHead::Declaration(Box::new(alloc, head)?);
    script.add_function(head, from, from, braces)
}

fn caught(script: &mut Script, alloc: Global, name: JText) -> Result<NodeId, NoMemory> {
    let guarded = Guarded {
        block: Listed::of(Vec::new(alloc)),
        catch: Some(Catch {
            name,
            statements: Listed::of(Vec::new(alloc)),
        }),
        finally: None,
    };
    script.add(Node::Try(Box::new(alloc, guarded)?), 0, 0)
}

fn labelled(script: &mut Script, label: JText, body: NodeId) -> Result<NodeId, NoMemory>
    requires { body.number < length script.old.kept }
{
    script.add(Node::Labelled { label, body }, 0, 0)
}

fn member(script: &mut Script, object: NodeId, key: JText) -> Result<NodeId, NoMemory>
    requires { object.number < length script.old.kept }
{
    script.add(Node::Member { object, key }, 0, 0)
}
