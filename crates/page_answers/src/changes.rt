// What is left of a document behind changes.
ghost use Rattle.std.specs.Prelude.{◌<◌, length};

use crate::lines::fault_line;
use crate::pages::text_line;
use dom_tree::{Dom, DomFault, Kind, NewNode};
use html_profile::read_html;
use mug_text::{JText, NoMemory};
use std::alloc::Global;

/// The document of a page behind the changes, which `, ` parts, each with what it answered.
pub fn left(alloc: Global, page: &[u8], changes: &str) -> Result<String, NoMemory> {
    let document = match read_html(alloc, page) {
        Ok(document) => document,
        Err(fault) => return fault_line(alloc, fault),
    };
    let mut dom = Dom::from_document(alloc, &document)?;
    let mut out = String::new(alloc);
    for change in changes.split(", ") {
        if !change.is_empty() {
            let answer = changed(alloc, &mut dom, change)?;
            out.push_str(answer.as_str())?;
            out.push_str("; ")?;
        }
    }
    for id in 0..dom.count() {
        out.push_str(node_line(alloc, &dom, id)?.as_str())?;
    }
    Ok(out)
}

fn text_of(alloc: Global, word: &str) -> Result<JText, NoMemory> {
    match JText::from_utf8(alloc, word.as_bytes()) {
        Ok(text) => Ok(text),
        Err(_) => Err(NoMemory),
    }
}

// The number of a word; of what is none, one that no node has.
fn number(word: Option<&str>) -> u32 {
    match word {
        Some(word) => word.parse::<u32>().unwrap_or(u32::MAX),
        None => u32::MAX,
    }
}

// What a change answers.
fn changed(alloc: Global, dom: &mut Dom, change: &str) -> Result<String, NoMemory> {
    let mut words = change.split(" ");
    let name = words.next().unwrap_or("");
    match name {
        "element" => {
            let name = text_of(alloc, words.next().unwrap_or(""))?;
            made(alloc, dom.create(NewNode::Element(name)))
        }
        "text" => {
            let text = text_of(alloc, words.next().unwrap_or(""))?;
            made(alloc, dom.create(NewNode::Text(text)))
        }
        "id" => {
            let id = text_of(alloc, words.next().unwrap_or(""))?;
            found(alloc, dom.by_id(&id))
        }
        _ => {
            let first = number(words.next());
            let second = words.next();
            let third = words.next();
            moved_or_written(alloc, dom, name, first, second, third)
        }
    }
}

fn made(alloc: Global, answer: Result<u32, DomFault>) -> Result<String, NoMemory> {
    match answer {
        Ok(node) => Ok(format!(in alloc; "{node}")?),
        Err(fault) => Ok(format!(in alloc; "{fault}")?),
    }
}

fn done(alloc: Global, answer: Result<(), DomFault>) -> Result<String, NoMemory> {
    match answer {
        Ok(()) => Ok(String::from_str(alloc, "ok")?),
        Err(fault) => Ok(format!(in alloc; "{fault}")?),
    }
}

fn found(alloc: Global, node: Option<u32>) -> Result<String, NoMemory> {
    match node {
        Some(node) => Ok(format!(in alloc; "{node}")?),
        None => Ok(String::from_str(alloc, "none")?),
    }
}

fn moved_or_written(
    alloc: Global,
    dom: &mut Dom,
    name: &str,
    first: u32,
    second: Option<&str>,
    third: Option<&str>,
) -> Result<String, NoMemory> {
    let count = dom.count();
    if first >= count {
        return Ok(String::from_str(alloc, "no node")?);
    }
    let other = number(second);
    match name {
        "first" => found(alloc, dom.first_child(first)),
        "last" => found(alloc, dom.last_child(first)),
        "next" => found(alloc, dom.next_sibling(first)),
        "previous" => found(alloc, dom.previous_sibling(first)),
        "in" => Ok(format!(in alloc; "{}", dom.is_in_document(first))?),
        "below" => below(alloc, dom, first),
        "child" => found(alloc, dom.by_path(&[first, other])),
        "remove" => done(alloc, dom.remove(first, other)),
        "append" if other < count => done(alloc, dom.append(first, other)),
        "insert" if other < count => done(alloc, dom.insert_before(first, other, number(third))),
        _ => written(
            alloc,
            dom,
            name,
            first,
            second.unwrap_or(""),
            third.unwrap_or(""),
        ),
    }
}

// All that stands below a node, in tree order.
fn below(alloc: Global, dom: &Dom, root: u32) -> Result<String, NoMemory> {
    let mut out = String::new(alloc);
    let mut here = root;
    for _ in 0..dom.count() {
        if here >= dom.count() {
            break;
        }
        match dom.next_within(root, here) {
            Some(next) => {
                out.push_str(format!(in alloc; "{next} ")?.as_str())?;
                here = next;
            }
            None => break,
        }
    }
    Ok(out)
}

fn written(
    alloc: Global,
    dom: &mut Dom,
    name: &str,
    node: u32,
    second: &str,
    third: &str,
) -> Result<String, NoMemory>
    requires { node < length dom.old }
{
    let word = text_of(alloc, second)?;
    match name {
        "set" => {
            let value = text_of(alloc, third)?;
            dom.set_attribute(node, &word, &value)?;
        }
        "unset" => dom.remove_attribute(node, &word),
        "get" => {
            return match dom.attribute(node, &word) {
                Some(value) => text_line(alloc, value),
                None => Ok(String::from_str(alloc, "none")?),
            };
        }
        "write" => write(dom, node, word),
        _ => return Ok(String::from_str(alloc, "no change")?),
    }
    Ok(String::from_str(alloc, "ok")?)
}

// Gives a text its units, and an input or a textarea its value.
fn write(dom: &mut Dom, node: u32, word: JText)
    requires { node < length dom.old }
{
    let kind = &dom.node(node).kind;
    if kind.keeps_value() {
        dom.set_value(node, word);
        return;
    }
    if let Kind::Text(_) = kind {
        dom.set_text(node, word);
    }
}

// A node: its parent, what it is, its attributes, its value and its children.
fn node_line(alloc: Global, dom: &Dom, id: u32) -> Result<String, NoMemory>
    requires { id < length dom.now }
{
    let node = dom.node(id);
    let mut out = String::new(alloc);
    if let Some(parent) = node.parent {
        out.push_str(format!(in alloc; "{parent}")?.as_str())?;
    }
    match &node.kind {
        Kind::Document => out.push_str("#")?,
        Kind::Text(text) => {
            out.push_str("'")?;
            out.push_str(text_line(alloc, text)?.as_str())?;
        }
        Kind::Element(name) => {
            out.push_str("<")?;
            out.push_str(text_line(alloc, name)?.as_str())?;
        }
    }
    for attribute in node.attributes.as_slice() {
        let name = text_line(alloc, &attribute.name)?;
        let value = text_line(alloc, &attribute.value)?;
        out.push_str(format!(in alloc; " {name}={value}")?.as_str())?;
    }
    if let Some(value) = &node.value {
        out.push_str("!")?;
        out.push_str(text_line(alloc, value)?.as_str())?;
    }
    out.push_str(children_line(alloc, dom, id)?.as_str())?;
    out.push_str("|")?;
    Ok(out)
}

// The children of a node, each with a comma before it.
fn children_line(alloc: Global, dom: &Dom, id: u32) -> Result<String, NoMemory>
    requires { id < length dom.now }
{
    let mut out = String::new(alloc);
    let mut child = dom.first_child(id);
    for _ in 0..dom.count() {
        match child {
            Some(here) if here < dom.count() => {
                out.push_str(format!(in alloc; ",{here}")?.as_str())?;
                child = dom.next_sibling(here);
            }
            _ => break,
        }
    }
    Ok(out)
}
