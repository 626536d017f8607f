// What a document is made of.
ghost use Rattle.std.specs.Prelude.{◌≡◌, [], None, is_some, IfOk};
ghost use Rattle.dom_tree.specs.Names.{keeps_value, fresh};
ghost use Rattle.dom_tree.specs.inner.Kept.{bare, no_links};

use crate::attributes::Attributes;
use crate::words::{is_word, no_text};
use mug_text::{JText, NoMemory};
use std::alloc::Global;

/// What a node is.
#[derive(Debug, Drop)]
pub enum Kind {
    Document,
    /// An element of this name.
    Element(JText),
    Text(JText),
}

/// What a new node is to be.
#[derive(Debug, Drop)]
pub enum NewNode {
    /// An element of this name.
    Element(JText),
    Text(JText),
}

/// The nodes around a node, but for its parent.
#[derive(Clone, Copy, Debug)]
pub(crate) struct Links {
    pub(crate) first: Option<u32>,
    pub(crate) last: Option<u32>,
    pub(crate) previous: Option<u32>,
    pub(crate) next: Option<u32>,
}

/// What is kept of a node. Its children are read by the document's calls.
#[derive(Debug, Drop)]
pub struct NodeData {
    pub kind: Kind,
    /// The document has none, and the root of a tree outside the document.
    pub parent: Option<u32>,
    pub attributes: Attributes,
    /// What an input or a textarea holds; other nodes have none.
    pub value: Option<JText>,
    pub(crate) links: Links,
}

impl Kind {
    /// Whether a node of this kind keeps a value beside its attributes: an input or a textarea.
    pub fn keeps_value(&self) -> bool
        ensures { result ≡ keeps_value self.now }
    {
        match self {
            Kind::Element(name) => is_word(name, b"input") || is_word(name, b"textarea"),
            _ => false,
        }
    }
}

impl Links {
    /// The links of a node in no parent and without children.
    pub(crate) fn new() -> Links
        ensures { result ≡ no_links }
    {
        Links {
            first: None,
            last: None,
            previous: None,
            next: None,
        }
    }
}

impl NodeData {
    /// A node outside the document.
    pub(crate) fn fresh(alloc: Global, kind: Kind) -> Result<NodeData, NoMemory>
        ensures is { IfOk result (λ d. bare d ≡ fresh kind) }
        ensures links { IfOk result (λ d. d.links ≡ no_links) }
    {
        let value = if kind.keeps_value() {
            Some(no_text(alloc)?)
        } else {
            None
        };
        Ok(NodeData {
            kind,
            parent: None,
            attributes: Attributes::new(alloc),
            value,
            links: Links::new(),
        })
    }
}
