// What a node says of itself is changed.
ghost use Rattle.std.specs.Prelude.{◌≡◌, ◌<◌, true, false, is_some, [], ◌∷◌, ◌++◌, length, OnOk, OnErr, slice_get, None};
ghost use Rattle.dom_tree.specs.Nodes.{is_text, is_document_kind};
ghost use Rattle.dom_tree.specs.Changes.{changed};
ghost use Rattle.dom_tree.specs.Names.{with_value, without_name, with_attributes, with_text, with_own_value, keeps_value, keeps_value_in};
ghost use Rattle.dom_tree.specs.inner.Kept.{nodes_of, bare, no_links, IsLinked};

use crate::parts::{Kind, NodeData};
use mug_text::JText;
use std::alloc::AllocError;

/// Puts a node behind the others, outside the document.
pub(crate) fn push_node(nodes: &mut Vec<NodeData>, node: NodeData) -> Result<(), AllocError>
    requires alone { node.parent ≡ None }
    requires links { node.links ≡ no_links }
    requires kind { is_document_kind node.kind ≡ false }
    requires value { is_some node.value ≡ keeps_value node.kind }
    requires linked { IsLinked nodes.old.items }
    ensures ok { OnOk result
        (nodes_of nodes.new.items ≡ nodes_of nodes.old.items ++ bare node ∷ []) }
    ensures err { OnErr result (nodes.new.items ≡ nodes.old.items) }
    ensures linked { IsLinked nodes.new.items }
{
    nodes.push(node)?;
    Ok(())
}

pub(crate) fn set_attribute(
    nodes: &mut [NodeData],
    node: u32,
    name: JText,
    value: JText,
) -> Result<(), AllocError>
    requires node { node < length nodes.old }
    requires linked { IsLinked nodes.old }
    ensures ok { OnOk result
        (nodes_of nodes.new
        ≡ changed (with_attributes (with_value name value)) node (nodes_of nodes.old)) }
    ensures err { OnErr result (nodes.new ≡ nodes.old) }
    ensures linked { IsLinked nodes.new }
{
    let node = &mut nodes[node as usize];
    node.attributes.set(name, value)
}

pub(crate) fn remove_attribute(nodes: &mut [NodeData], node: u32, name: &JText)
    requires node { node < length nodes.old }
    requires linked { IsLinked nodes.old }
    ensures is { nodes_of nodes.new
        ≡ changed (with_attributes (without_name name.now)) node (nodes_of nodes.old) }
    ensures linked { IsLinked nodes.new }
{
    let node = &mut nodes[node as usize];
    node.attributes.remove(name);
}

pub(crate) fn set_text(nodes: &mut [NodeData], node: u32, text: JText)
    requires text { is_text (nodes_of nodes.old) node ≡ true }
    requires node { node < length nodes.old }
    requires linked { IsLinked nodes.old }
    ensures is { nodes_of nodes.new ≡ changed (with_text text) node (nodes_of nodes.old) }
    ensures linked { IsLinked nodes.new }
{
    let node = &mut nodes[node as usize];
    node.kind = Kind::Text(text);
}

pub(crate) fn set_value(nodes: &mut [NodeData], node: u32, value: JText)
    requires keeps { keeps_value_in (slice_get (nodes_of nodes.old) node) ≡ true }
    requires node { node < length nodes.old }
    requires linked { IsLinked nodes.old }
    ensures is { nodes_of nodes.new ≡ changed (with_own_value value) node (nodes_of nodes.old) }
    ensures linked { IsLinked nodes.new }
{
    let node = &mut nodes[node as usize];
    node.value = Some(value);
}
