// A document.
ghost use Rattle.std.specs.Prelude.{◌≡◌, ◌⊎◌, ◌<◌, ◌≤◌, ◌↔◌, true, false, List, [], ◌∷◌, ◌++◌, length, IfOk, IfErr, IfSome, OnOk, OnErr, Some, slice_get};
ghost use Rattle.std.specs.Option.{option_map};
ghost use Rattle.dom_tree.specs.Node.{node_with};
ghost use Rattle.dom_tree.specs.Nodes.{Fits, parent_of, children_of, is_child, is_text, is_in_document, IsInDocument};
ghost use Rattle.dom_tree.specs.Changes.{changed, appended, inserted, removed, would_cycle};
ghost use Rattle.dom_tree.specs.Names.{value_named, attributes_of, with_value, without_name, with_attributes, with_text, with_own_value, keeps_value_in, fresh, kind_of_new};
ghost use Rattle.dom_tree.specs.Reading.{IsRead};
ghost use Rattle.dom_tree.specs.Order.{node_by_id, node_by_path, first_child, last_child, next_sibling, previous_sibling, next_within};

use crate::kin::{
    first_child, is_in_document, last_child, next_sibling, next_within, previous_sibling,
};
use crate::moves::{append_child, insert_child, is_child, remove_child, would_cycle};
use crate::order::{node_by_id, node_by_path};
use crate::parts::{Kind, NewNode, NodeData};
use crate::reading::read_nodes;
use crate::writes::{push_node, remove_attribute, set_attribute, set_text, set_value};
use html_profile::Document;
use mug_text::{INDEX_END, JText, NoMemory};
use std::alloc::{AllocError, Global};
use std::marker::Model;
use thiserror::Error;

/// The nodes of a document that is changed: at most so many, so that there are fewer than
/// `INDEX_END`.
pub const NODE_LIMIT: u32 = INDEX_END - 1;

/// Why a document is not changed.
#[derive(Clone, Copy, Debug, PartialEq, Eq, Error)]
pub enum DomFault {
    /// The node before which a child is to stand, or the child that is to be taken away, is no
    /// child of the parent (DOM Standard, NotFoundError).
    #[error("not found")]
    NotFound,
    /// The child is the parent, an ancestor of it or the document, or the parent is a text
    /// (DOM Standard, HierarchyRequestError).
    #[error("would make a cycle")]
    WouldCycle,
    /// There are as many nodes as there may be.
    #[error("full")]
    Full,
    #[error("out of memory")]
    NoMemory,
}

impl From<AllocError> for DomFault {
    ghost use Rattle.dom_tree.specs.declared.dom.DomFault.TheVariants.{NoMemory as no_memory};

    ghost from_gives = { λ _ fault. fault ≡ no_memory };

    fn from(_error: AllocError) -> DomFault {
        DomFault::NoMemory
    }
}

impl From<NoMemory> for DomFault {
    ghost use Rattle.dom_tree.specs.declared.dom.DomFault.TheVariants.{NoMemory as no_memory};

    ghost from_gives = { λ _ fault. fault ≡ no_memory };

    fn from(_error: NoMemory) -> DomFault {
        DomFault::NoMemory
    }
}

/// A document, as the list of its nodes.
#[derive(Debug, Drop)]
pub struct Dom {
    alloc: Global,
    nodes: Vec<NodeData>,
}

impl Model for Dom {
    ghost use Rattle.std.specs.Prelude.{◌<◌, ◌^◌, List, length};
    ghost use Rattle.dom_tree.specs.Node.{DomNode};
    ghost use Rattle.dom_tree.specs.inner.Kept.{nodes_of, IsLinked};

    ghost Value = { List DomNode };

    ghost view = { λ d. nodes_of d.nodes.items };

    ghost invariant = { λ d. IsLinked d.nodes.items × (length d.nodes.items < 2 ^ 32) };
}

impl Dom {
    /// The document that a page is: the same nodes, each with its number. An input's value is its
    /// attribute `value`, and a textarea's its text.
    pub fn from_document(alloc: Global, doc: &Document) -> Result<Dom, NoMemory>
        ensures { IfOk result (λ dom. IsRead doc.now.nodes dom) }
    {
        let nodes = read_nodes(alloc, doc)?;
        Ok(Dom { alloc, nodes })
    }

    /// How many nodes there are.
    pub fn count(&self) -> u32
        ensures is { result ≡ length self.now }
        ensures fits { Fits self.now }
    {
        self.nodes.len() as u32
    }

    /// What is kept of the node of this number. What stands around it is asked for by calls of
    /// their own.
    pub fn node(&self, id: u32) -> &NodeData
        requires { id < length self.now }
        ensures { slice_get self.now id ≡ Some (node_with (children_of self.now id) result.now) }
    {
        &self.nodes[id as usize]
    }

    /// Makes a node outside the document; a value that it keeps is empty.
    pub fn create(&mut self, kind: NewNode) -> Result<u32, DomFault>
        ensures ok { IfOk result
            (λ id. (id ≡ length self.old)
            × (self.new ≡ self.old ++ fresh (kind_of_new kind) ∷ [])) }
        ensures full { (result ≡ Err DomFault.Full) ↔ (NODE_LIMIT ≤ length self.old) }
        ensures others { IfErr result
            (λ fault. (fault ≡ DomFault.Full) ⊎ (fault ≡ DomFault.NoMemory)) }
        ensures err { OnErr result (self.new ≡ self.old) }
    {
        let id = self.nodes.len();
        if id >= NODE_LIMIT as usize {
            return Err(DomFault::Full);
        }
        let kind = match kind {
            NewNode::Element(name) => Kind::Element(name),
            NewNode::Text(text) => Kind::Text(text),
        };
        let node = NodeData::fresh(self.alloc, kind)?;
        push_node(&mut self.nodes, node)?;
        Ok(id as u32)
    }

    /// Makes the child the last one of the parent.
    pub fn append(&mut self, parent: u32, child: u32) -> Result<(), DomFault>
        requires parent { parent < length self.old }
        requires child { child < length self.old }
        ensures ok { OnOk result (self.new ≡ appended parent child self.old) }
        ensures cycle { (result ≡ Err DomFault.WouldCycle)
            ↔ (would_cycle self.old parent child ≡ true) }
        ensures others { IfErr result (λ fault. fault ≡ DomFault.WouldCycle) }
        ensures err { OnErr result (self.new ≡ self.old) }
    {
        if would_cycle(&self.nodes, parent, child) {
            return Err(DomFault::WouldCycle);
        }
        append_child(&mut self.nodes, parent, child);
        Ok(())
    }

    /// Puts the child in front of another child of the parent.
    pub fn insert_before(&mut self, parent: u32, child: u32, before: u32) -> Result<(), DomFault>
        requires parent { parent < length self.old }
        requires child { child < length self.old }
        ensures ok { OnOk result (self.new ≡ inserted parent child before self.old) }
        ensures cycle { (result ≡ Err DomFault.WouldCycle)
            ↔ (would_cycle self.old parent child ≡ true) }
        ensures not_found { (result ≡ Err DomFault.NotFound)
            ↔ ((would_cycle self.old parent child ≡ false)
            × (is_child self.old parent before ≡ false)) }
        ensures others { IfErr result
            (λ fault. (fault ≡ DomFault.WouldCycle) ⊎ (fault ≡ DomFault.NotFound)) }
        ensures err { OnErr result (self.new ≡ self.old) }
    {
        let found = is_child(&self.nodes, parent, before);
        if would_cycle(&self.nodes, parent, child) {
            return Err(DomFault::WouldCycle);
        }
        if !found {
            return Err(DomFault::NotFound);
        }
        if child == before {
            return Ok(());
        }
        insert_child(&mut self.nodes, parent, child, before);
        Ok(())
    }

    /// Takes the child from the parent.
    pub fn remove(&mut self, parent: u32, child: u32) -> Result<(), DomFault>
        ensures ok { OnOk result (self.new ≡ removed child self.old) }
        ensures not_found { (result ≡ Err DomFault.NotFound)
            ↔ (is_child self.old parent child ≡ false) }
        ensures others { IfErr result (λ fault. fault ≡ DomFault.NotFound) }
        ensures err { OnErr result (self.new ≡ self.old) }
    {
        if !is_child(&self.nodes, parent, child) {
            return Err(DomFault::NotFound);
        }
        remove_child(&mut self.nodes, child);
        Ok(())
    }

    /// The value of the attribute of this name.
    pub fn attribute(&self, node: u32, name: &JText) -> Option<&JText>
        requires { node < length self.now }
        ensures { option_map (λ value. value.now) result
            ≡ value_named name.now (attributes_of self.now node) }
    {
        self.nodes[node as usize].attributes.value(name)
    }

    /// Gives the attribute of this name a value.
    pub fn set_attribute(&mut self, node: u32, name: &JText, value: &JText) -> Result<(), NoMemory>
        requires { node < length self.old }
        ensures ok { OnOk result
            (self.new ≡ changed (with_attributes (with_value name.now value.now)) node self.old) }
        ensures err { OnErr result (self.new ≡ self.old) }
    {
        let name = name.copy()?;
        let value = value.copy()?;
        set_attribute(&mut self.nodes, node, name, value)?;
        Ok(())
    }

    /// Takes the attribute of this name away.
    pub fn remove_attribute(&mut self, node: u32, name: &JText)
        requires { node < length self.old }
        ensures { self.new ≡ changed (with_attributes (without_name name.now)) node self.old }
    {
        remove_attribute(&mut self.nodes, node, name);
    }

    /// Gives a text other units.
    pub fn set_text(&mut self, node: u32, text: JText)
        requires { is_text self.old node ≡ true }
        ensures { self.new ≡ changed (with_text text) node self.old }
    {
        set_text(&mut self.nodes, node, text);
    }

    /// Gives an input or a textarea a value.
    pub fn set_value(&mut self, node: u32, value: JText)
        requires { keeps_value_in (slice_get self.old node) ≡ true }
        ensures { self.new ≡ changed (with_own_value value) node self.old }
    {
        set_value(&mut self.nodes, node, value);
    }

    /// The first element of the document, in tree order, with this id.
    pub fn by_id(&self, id: &JText) -> Option<u32>
        ensures is { result ≡ node_by_id self.now id.now }
        ensures there { IfSome result (λ node. IsInDocument self.now node) }
    {
        node_by_id(&self.nodes, id)
    }

    /// The node that child numbers lead to from the document; 0 is the first child.
    pub fn by_path(&self, path: &[u32]) -> Option<u32>
        ensures is { result ≡ node_by_path self.now path.now }
        ensures there { IfSome result (λ node. IsInDocument self.now node) }
    {
        node_by_path(&self.nodes, path)
    }

    /// Whether the node is the document or stands below it; no node that isn't there does.
    pub fn is_in_document(&self, node: u32) -> bool
        ensures { result ≡ is_in_document self.now node }
    {
        is_in_document(&self.nodes, node)
    }

    pub fn first_child(&self, node: u32) -> Option<u32>
        requires { node < length self.now }
        ensures is { result ≡ first_child self.now node }
        ensures there { IfSome result (λ child. is_child self.now node child ≡ true) }
    {
        first_child(&self.nodes, node)
    }

    pub fn last_child(&self, node: u32) -> Option<u32>
        requires { node < length self.now }
        ensures is { result ≡ last_child self.now node }
        ensures there { IfSome result (λ child. is_child self.now node child ≡ true) }
    {
        last_child(&self.nodes, node)
    }

    pub fn next_sibling(&self, node: u32) -> Option<u32>
        requires { node < length self.now }
        ensures is { result ≡ next_sibling self.now node }
        ensures there { IfSome result (λ x. x < length self.now) }
        ensures beside { IfSome result (λ x. parent_of self.now x ≡ parent_of self.now node) }
    {
        next_sibling(&self.nodes, node)
    }

    pub fn previous_sibling(&self, node: u32) -> Option<u32>
        requires { node < length self.now }
        ensures is { result ≡ previous_sibling self.now node }
        ensures there { IfSome result (λ x. x < length self.now) }
        ensures beside { IfSome result (λ x. parent_of self.now x ≡ parent_of self.now node) }
    {
        previous_sibling(&self.nodes, node)
    }

    /// The node that follows in tree order (DOM Standard, 1.1) within the tree below a root; asked
    /// for again and again from the root on, it gives all that is below it.
    pub fn next_within(&self, root: u32, node: u32) -> Option<u32>
        requires { node < length self.now }
        ensures is { result ≡ next_within self.now root node }
        ensures there { IfSome result (λ x. x < length self.now) }
    {
        next_within(&self.nodes, root, node)
    }
}
