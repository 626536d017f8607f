// The tree that a page's pieces make.
ghost use Rattle.std.specs.Str.{IsUtf8};
ghost use Rattle.html_profile.specs.Decoding.{DecodingAttribute, DecodingTag, DecodingPiece};
ghost use Rattle.std.specs.Prelude.{◌≡◌, All, ◌+◌, ◌-◌, ◌<◌, ◌≤◌, ◌^◌, ◌++◌, List, [], map, reverse, take, length, vec_len, IfOk, OnOk, Some, None, MatchOption};
ghost use Rattle.html_profile.specs.Names.{firsts};
ghost use Rattle.html_profile.specs.Tree.{units, settled, innermost, closed, shown_attribute, handler_of, handlers_of, name_at, script_of, element_of, with_element, with_closed, step, made, beginning};
ghost use Rattle.html_profile.specs.Building.{state_of, IsKnown};
ghost use Rattle.html_profile.specs.Standing.{HasStanding, names_of};

use crate::document::{Content, DocAttribute, DocNode, HandlerAt, NameAt, ScriptAt};
use crate::names::{is_handler, is_run, is_void, value_named};
use crate::piece::{Piece, Tag};
use crate::seen::Seen;
use crate::standing::Standing;
use crate::tag::Attribute;
use mug_text::{Bytes, JText, Listed, TextFault};
use std::alloc::{AllocError, Global};

/// An open element.
#[derive(Debug, Drop)]
pub(crate) struct Open {
    pub(crate) node: u32,
    pub(crate) name: Bytes,
}

/// What has been read of a page.
#[derive(Drop)]
pub(crate) struct Builder {
    alloc: Global,
    // The page's length.
    pub(crate) total: usize,
    pub(crate) nodes: Vec<DocNode>,
    // Innermost last.
    elements: Vec<Open>,
    standing: Standing,
    // The text behind the last tag.
    words: Vec<u8>,
    pub(crate) scripts: Vec<ScriptAt>,
    pub(crate) handlers: Vec<HandlerAt>,
    pub(crate) names: Vec<NameAt>,
}

// The units of a text in UTF-8.
fn text_of(alloc: Global, bytes: &[u8]) -> Result<JText, AllocError>
    requires { IsUtf8 bytes.now }
    ensures { IfOk result (λ text. text ≡ units bytes.now) }
{
    match JText::from_utf8(alloc, bytes) {
        Ok(text) => Ok(text),
        Err(TextFault::NotUtf8 { .. }) => unreachable!(),
        Err(TextFault::NoMemory) => Err(AllocError),
    }
}

// The first attribute of each name.
fn firsts(alloc: Global, attributes: &[Attribute]) -> Result<Vec<&Attribute>, AllocError>
    ensures { IfOk result (λ kept. map (λ a. a.now) kept.items ≡ firsts [] attributes.now) }
{
    let mut seen = Seen::new(alloc);
    let mut kept = Vec::new(alloc);
    for attribute in attributes {
        if seen.add(attribute.name.as_slice())? {
            kept.push(attribute)?;
        }
    }
    Ok(kept)
}

fn shown_attribute(alloc: Global, attribute: &Attribute) -> Result<DocAttribute, AllocError>
    requires { DecodingAttribute attribute.now }
    ensures { IfOk result (λ shown. shown ≡ shown_attribute attribute.now) }
{
    Ok(DocAttribute {
        name: text_of(alloc, attribute.name.as_slice())?,
        value: text_of(alloc, attribute.value.as_slice())?,
    })
}

fn shown(alloc: Global, attributes: &[&Attribute]) -> Result<Vec<DocAttribute>, AllocError>
    requires { All DecodingAttribute (map (λ a. a.now) attributes.now) }
    ensures { IfOk result
        (λ shown. shown.items ≡ map shown_attribute (map (λ a. a.now) attributes.now)) }
{
    let mut shown = Vec::new(alloc);
    for attribute in attributes {
        shown.push(shown_attribute(alloc, attribute)?)?;
    }
    Ok(shown)
}

// The place of the nearest open element of this name.
fn nearest(elements: &[Open], name: &[u8]) -> Option<usize>
    ensures is { MatchOption result (closed name.now (reverse elements.now) ≡ None)
        (λ at. closed name.now (reverse elements.now) ≡ Some (reverse (take at elements.now))) }
    ensures within { MatchOption result Unit (λ at. at < length elements.now) }
{
    let mut at = elements.len();
    while at > 0 {
        at -= 1;
        if elements[at].name.as_slice() == name {
            return Some(at);
        }
    }
    None
}

// Takes away the names of all elements from this place on.
fn forget(standing: &mut Standing, elements: &[Open], at: usize)
    requires within { at ≤ length elements.now }
    requires known { HasStanding standing.old (names_of (reverse elements.now)) }
    ensures { HasStanding standing.new (names_of (reverse (take at elements.now))) }
{
    let mut end = elements.len();
    while end > at {
        end -= 1;
        standing.pop(elements[end].name.as_slice());
    }
}

fn push_handler(
    alloc: Global,
    total: usize,
    node: u32,
    attribute: &Attribute,
    handlers: &mut Vec<HandlerAt>,
) -> Result<(), AllocError>
    requires { DecodingAttribute attribute.now }
    ensures { OnOk result
        (handlers.new.items ≡ handlers.old.items ++ handler_of total node attribute.now) }
{
    if !is_handler(attribute.name.as_slice()) {
        return Ok(());
    }
    handlers.push(HandlerAt {
        node,
        name: text_of(alloc, attribute.name.as_slice())?,
        text: text_of(alloc, attribute.value.as_slice())?,
        at: total.saturating_sub(attribute.left),
    })?;
    Ok(())
}

fn push_handlers(
    alloc: Global,
    total: usize,
    node: u32,
    attributes: &[&Attribute],
    handlers: &mut Vec<HandlerAt>,
) -> Result<(), AllocError>
    requires { All DecodingAttribute (map (λ a. a.now) attributes.now) }
    ensures { OnOk result
        (handlers.new.items
        ≡ handlers.old.items ++ handlers_of total node (map (λ a. a.now) attributes.now)) }
{
    for attribute in attributes {
        push_handler(alloc, total, node, attribute, handlers)?;
    }
    Ok(())
}

fn push_names(
    alloc: Global,
    total: usize,
    node: u32,
    attributes: &[&Attribute],
    names: &mut Vec<NameAt>,
) -> Result<(), AllocError>
    requires { All DecodingAttribute (map (λ a. a.now) attributes.now) }
    ensures { OnOk result
        (names.new.items
        ≡ names.old.items ++ map (name_at total node) (map (λ a. a.now) attributes.now)) }
{
    for attribute in attributes {
        names.push(NameAt {
            node,
            name: text_of(alloc, attribute.name.as_slice())?,
            at: total.saturating_sub(attribute.left),
        })?;
    }
    Ok(())
}

fn push_script(
    alloc: Global,
    total: usize,
    node: u32,
    tag: &Tag,
    scripts: &mut Vec<ScriptAt>,
) -> Result<(), AllocError>
    requires { DecodingTag tag.now }
    ensures { OnOk result (scripts.new.items ≡ scripts.old.items ++ script_of total node tag.now) }
{
    let attributes = tag.attributes.as_slice();
    if !is_run(alloc, tag.name.as_slice(), attributes)? {
        return Ok(());
    }
    let src = match value_named(attributes, b"src") {
        Some(value) => Some(text_of(alloc, value)?),
        None => None,
    };
    scripts.push(ScriptAt {
        node,
        src,
        text: text_of(alloc, tag.text.as_slice())?,
        source: Bytes::from_vec(tag.source.as_slice().to_vec(alloc)?),
        at: total.saturating_sub(tag.left),
    })?;
    Ok(())
}

// The node of an element in this parent.
fn element_of(
    alloc: Global,
    parent: u32,
    tag: &Tag,
    attributes: &[&Attribute],
) -> Result<DocNode, AllocError>
    requires firsts { map (λ a. a.now) attributes.now ≡ firsts [] tag.now.attributes }
    requires decodes { DecodingTag tag.now }
    ensures { IfOk result (λ node. node ≡ element_of parent tag.now) }
{
    let content = Content::Element {
        name: text_of(alloc, tag.name.as_slice())?,
        attributes: Listed::of(shown(alloc, attributes)?),
    };
    Ok(DocNode {
        parent: Some(parent),
        content,
    })
}

impl Builder {
    /// The document alone, of a page of this length.
    pub(crate) fn new(alloc: Global, total: usize) -> Result<Builder, AllocError>
        ensures is { IfOk result (λ builder. state_of builder ≡ beginning) }
        ensures total { IfOk result (λ builder. builder.total ≡ total) }
        ensures nodes { IfOk result (λ builder. vec_len builder.nodes ≡ 1) }
        ensures known { IfOk result IsKnown }
        ensures decodes { IfOk result (λ builder. IsUtf8 builder.words.items) }
    {
        let mut nodes = Vec::new(alloc);
        nodes.push(DocNode {
            parent: None,
            content: Content::Document,
        })?;
        Ok(Builder {
            alloc,
            total,
            nodes,
            elements: Vec::new(alloc),
            standing: Standing::new(alloc),
            words: Vec::new(alloc),
            scripts: Vec::new(alloc),
            handlers: Vec::new(alloc),
            names: Vec::new(alloc),
        })
    }

    // The number of the innermost open element, or of the document.
    fn innermost(&self) -> u32
        ensures { result ≡ innermost (state_of self.now).open_elements }
    {
        match self.elements.last() {
            Some(open) => open.node,
            None => 0,
        }
    }

    // Makes the text behind the last tag a node.
    pub(crate) fn settle(&mut self) -> Result<(), AllocError>
        requires { IsUtf8 self.old.words.items }
        ensures is { OnOk result (state_of self.new ≡ settled (state_of self.old)) }
        ensures total { self.new.total ≡ self.old.total }
        ensures elements { self.new.elements ≡ self.old.elements }
        ensures standing { self.new.standing ≡ self.old.standing }
        ensures words { OnOk result (self.new.words.items ≡ []) }
        ensures decodes { OnOk result (IsUtf8 self.new.words.items) }
        ensures nodes { vec_len self.new.nodes ≤ vec_len self.old.nodes + 1 }
    {
        if self.words.is_empty() {
            return Ok(());
        }
        let text = text_of(self.alloc, &self.words)?;
        let parent = Some(self.innermost());
        self.nodes.push(DocNode {
            parent,
            content: Content::Text(text),
        })?;
        self.words.clear();
        Ok(())
    }

    // Closes all up to the nearest open element of this name.
    fn close(&mut self, name: &[u8]) -> Result<(), AllocError>
        requires known { IsKnown self.old }
        requires decodes { IsUtf8 self.old.words.items }
        ensures is { OnOk result
            (state_of self.new
            ≡ with_closed (state_of self.old) (closed name.now (state_of self.old).open_elements)) }
        ensures total { self.new.total ≡ self.old.total }
        ensures nodes { vec_len self.new.nodes ≤ vec_len self.old.nodes + 1 }
        ensures known { OnOk result (IsKnown self.new) }
        ensures decodes { OnOk result (IsUtf8 self.new.words.items) }
    {
        if !self.standing.has(name) {
            return Ok(());
        }
        let Some(at) = nearest(&self.elements, name) else {
            return Ok(());
        };
        self.settle()?;
        forget(&mut self.standing, &self.elements, at);
        self.elements.truncate(at);
        Ok(())
    }

    // Adds all of a start tag but its element, which it hands out.
    fn describe(&mut self, node: u32, tag: &Tag) -> Result<DocNode, AllocError>
        requires { DecodingTag tag.now }
        ensures element { IfOk result
            (λ made. made ≡ element_of (innermost (state_of self.old).open_elements) tag.now) }
        ensures scripts { OnOk result
            (self.new.scripts.items
            ≡ self.old.scripts.items ++ script_of self.old.total node tag.now) }
        ensures handlers { OnOk result
            (self.new.handlers.items
            ≡ self.old.handlers.items
            ++ handlers_of self.old.total node (firsts [] tag.now.attributes)) }
        ensures names { OnOk result
            (self.new.names.items
            ≡ self.old.names.items
            ++ map (name_at self.old.total node) (firsts [] tag.now.attributes)) }
        ensures words { OnOk result (self.new.words.items ≡ self.old.words.items ++ tag.now.text) }
        ensures nodes { self.new.nodes ≡ self.old.nodes }
        ensures elements { self.new.elements ≡ self.old.elements }
        ensures standing { self.new.standing ≡ self.old.standing }
        ensures total { self.new.total ≡ self.old.total }
    {
        let kept = firsts(self.alloc, tag.attributes.as_slice())?;
        let element = element_of(self.alloc, self.innermost(), tag, &kept)?;
        push_handlers(self.alloc, self.total, node, &kept, &mut self.handlers)?;
        push_names(self.alloc, self.total, node, &kept, &mut self.names)?;
        push_script(self.alloc, self.total, node, tag, &mut self.scripts)?;
        self.words.extend_from_slice(tag.text.as_slice())?;
        Ok(element)
    }

    // Adds the element of a start tag, behind which no text stands yet.
    fn add(&mut self, tag: Tag) -> Result<(), AllocError>
        requires tag { DecodingTag tag }
        requires words { self.old.words.items ≡ [] }
        requires known { IsKnown self.old }
        requires room { vec_len self.old.nodes < 2 ^ 32 }
        ensures is { OnOk result
            (state_of self.new ≡ with_element self.old.total (state_of self.old) tag) }
        ensures total { self.new.total ≡ self.old.total }
        ensures nodes { vec_len self.new.nodes ≤ vec_len self.old.nodes + 1 }
        ensures known { OnOk result (IsKnown self.new) }
        ensures decodes { OnOk result (IsUtf8 self.new.words.items) }
    {
        let node = self.nodes.len() as u32;
        let element = self.describe(node, &tag)?;
        self.nodes.push(element)?;
        let Tag { name, .. } = tag;
        if !is_void(name.as_slice()) {
            self.standing.push(name.as_slice())?;
            self.elements.push(Open { node, name })?;
        }
        Ok(())
    }

    /// Adds one more piece.
    pub(crate) fn take(&mut self, piece: Piece) -> Result<(), AllocError>
        requires piece { DecodingPiece piece }
        requires known { IsKnown self.old }
        requires decodes { IsUtf8 self.old.words.items }
        requires room { vec_len self.old.nodes + 1 < 2 ^ 32 }
        ensures is { OnOk result
            (state_of self.new ≡ step self.old.total (state_of self.old) piece) }
        ensures total { self.new.total ≡ self.old.total }
        ensures nodes { vec_len self.new.nodes ≤ vec_len self.old.nodes + 2 }
        ensures known { OnOk result (IsKnown self.new) }
        ensures decodes { OnOk result (IsUtf8 self.new.words.items) }
    {
        match piece {
            Piece::Dropped => Ok(()),
            Piece::Text(words) => {
                self.words.extend_from_slice(words.as_slice())?;
                Ok(())
            }
            Piece::EndTag(name) => self.close(name.as_slice()),
            Piece::StartTag(tag) => {
                self.settle()?;
                self.add(tag)
            }
        }
    }
}
