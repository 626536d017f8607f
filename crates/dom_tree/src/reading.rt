// The nodes of a page as nodes of a document.
ghost use Rattle.std.specs.Prelude.{◌≡◌, ◌+◌, ◌<◌, ◌^◌, [], ◌∷◌, length, take, vec_len, slice_get, IfOk, OnOk, Some, None};
ghost use Rattle.std.specs.Option.{option_map};
ghost use Rattle.html_profile.specs.Numbering.{IsNumbered};
ghost use Rattle.dom_tree.specs.Reading.{kind_of, attributes_of_content, text_in, or_empty, value_of, made_of, IsFront, IsRead};
ghost use Rattle.dom_tree.specs.inner.Kept.{nodes_of, bare, no_links, IsLinked};

use crate::attributes::{Attributes, value_of};
use crate::moves::append_child;
use crate::parts::{Kind, Links, NodeData};
use crate::words::{is_word, no_text};
use crate::writes::push_node;
use html_profile::{Content, Document};
use mug_text::{JText, NoMemory};
use std::alloc::{AllocError, Global};

fn kind_of(content: &Content) -> Result<Kind, NoMemory>
    ensures { IfOk result (λ kind. kind ≡ kind_of content.now) }
{
    match content {
        Content::Document => Ok(Kind::Document),
        Content::Element { name, .. } => Ok(Kind::Element(name.copy()?)),
        Content::Text(text) => Ok(Kind::Text(text.copy()?)),
    }
}

fn attributes_of(alloc: Global, content: &Content) -> Result<Attributes, NoMemory>
    ensures { IfOk result (λ attributes. attributes ≡ attributes_of_content content.now) }
{
    match content {
        Content::Element { attributes, .. } => Attributes::of(alloc, attributes.as_slice()),
        _ => Ok(Attributes::new(alloc)),
    }
}

// The text that stands next and belongs to this node, or none.
fn text_behind(alloc: Global, doc: &Document, id: u32) -> Result<JText, NoMemory>
    ensures { IfOk result (λ text. text ≡ text_in id (slice_get doc.now.nodes (id + 1))) }
{
    let next = id as usize + 1;
    if next >= doc.count() as usize {
        return no_text(alloc);
    }
    let node = doc.node(next as u32);
    if node.parent != Some(id) {
        return no_text(alloc);
    }
    match &node.content {
        Content::Text(text) => text.copy(),
        _ => no_text(alloc),
    }
}

fn copy_or_empty(alloc: Global, text: Option<&JText>) -> Result<JText, NoMemory>
    ensures { IfOk result (λ copy. copy ≡ or_empty (option_map (λ t. t.now) text.entry)) }
{
    match text {
        Some(text) => text.copy(),
        None => no_text(alloc),
    }
}

// What a node with this content keeps beside its attributes.
fn start_value(
    alloc: Global,
    doc: &Document,
    id: u32,
    content: &Content,
) -> Result<Option<JText>, NoMemory>
    ensures { IfOk result (λ value. value ≡ value_of doc.now.nodes id content.now) }
{
    let Content::Element { name, attributes } = content else {
        return Ok(None);
    };
    if is_word(name, b"input") {
        let value = value_of(attributes.as_slice(), b"value");
        return Ok(Some(copy_or_empty(alloc, value)?));
    }
    if is_word(name, b"textarea") {
        return Ok(Some(text_behind(alloc, doc, id)?));
    }
    Ok(None)
}

// The node of this number, before it has a parent.
fn make_node(alloc: Global, doc: &Document, id: u32) -> Result<NodeData, NoMemory>
    requires { id < length doc.now.nodes }
    ensures is { IfOk result
        (λ d. option_map (made_of doc.now.nodes id) (slice_get doc.now.nodes id) ≡ Some (bare d)) }
    ensures links { IfOk result (λ d. d.links ≡ no_links) }
{
    let content = &doc.node(id).content;
    Ok(NodeData {
        kind: kind_of(content)?,
        parent: None,
        attributes: attributes_of(alloc, content)?,
        value: start_value(alloc, doc, id, content)?,
        links: Links::new(),
    })
}

// Adds the node of the next number.
fn add_node(
    alloc: Global,
    doc: &Document,
    nodes: &mut Vec<NodeData>,
    id: u32,
) -> Result<(), NoMemory>
    requires numbered { IsNumbered doc.now.nodes }
    requires some { 0 < id }
    requires id { id < length doc.now.nodes }
    requires linked { IsLinked nodes.old.items }
    requires front { IsFront doc.now.nodes (take id doc.now.nodes) (nodes_of nodes.old.items) }
    ensures linked { OnOk result (IsLinked nodes.new.items) }
    ensures front { OnOk result
        (IsFront doc.now.nodes (take (id + 1) doc.now.nodes) (nodes_of nodes.new.items)) }
{
    let node = make_node(alloc, doc, id)?;
    push_node(nodes, node)?;
    let above = doc.node(id).parent;
    match above {
        Some(parent) => append_child(nodes, parent, id),
        None => unreachable!(),
    }
    Ok(())
}

fn list_of(alloc: Global, node: NodeData) -> Result<Vec<NodeData>, AllocError>
    ensures { IfOk result (λ nodes. nodes.items ≡ node ∷ []) }
{
    let mut nodes = Vec::new(alloc);
    nodes.push(node)?;
    Ok(nodes)
}

/// All nodes of a page.
pub(crate) fn read_nodes(alloc: Global, doc: &Document) -> Result<Vec<NodeData>, NoMemory>
    ensures linked { IfOk result (λ nodes. IsLinked nodes.items) }
    ensures few { IfOk result (λ nodes. vec_len nodes < 2 ^ 32) }
    ensures read { IfOk result (λ nodes. IsRead doc.now.nodes (nodes_of nodes.items)) }
{
    let count = doc.count();
    let document = make_node(alloc, doc, 0)?;
    let mut nodes = list_of(alloc, document)?;
    for id in 1..count {
        add_node(alloc, doc, &mut nodes, id)?;
    }
    Ok(nodes)
}
