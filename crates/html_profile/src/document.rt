// A page as a tree.
use mug_text::{Bytes, JText, Listed};

/// An attribute of an element.
#[derive(Debug, Drop)]
pub struct DocAttribute {
    /// The name, with ASCII letters lowered.
    pub name: JText,
    pub value: JText,
}

/// What a node is.
#[derive(Debug, Drop)]
pub enum Content {
    Document,
    /// An element, with the first attribute of each name.
    Element {
        name: JText,
        attributes: Listed<DocAttribute>,
    },
    Text(JText),
}

/// A node of a page.
#[derive(Debug, Drop)]
pub struct DocNode {
    /// The parent's number; the document alone has none.
    pub parent: Option<u32>,
    pub content: Content,
}

/// A script that is run.
#[derive(Debug, Drop)]
pub struct ScriptAt {
    /// The number of the element.
    pub node: u32,
    /// Where there is one, the text is ignored.
    pub src: Option<JText>,
    pub text: JText,
    /// The bytes that read as the text.
    pub source: Bytes,
    /// The offset of the text's first byte in the page without the inserted script.
    pub at: usize,
}

/// A handler attribute.
#[derive(Debug, Drop)]
pub struct HandlerAt {
    /// The number of the element.
    pub node: u32,
    pub name: JText,
    pub text: JText,
    /// The offset of the name's first byte in the page without the inserted script.
    pub at: usize,
}

/// Where an attribute of an element stands.
#[derive(Debug, Drop)]
pub struct NameAt {
    /// The number of the element.
    pub node: u32,
    /// The attribute's name.
    pub name: JText,
    /// The offset of the name's first byte in the page without the inserted script.
    pub at: usize,
}
