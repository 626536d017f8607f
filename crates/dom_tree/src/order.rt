// Where nodes are found in the document.
ghost use Rattle.std.specs.Prelude.{◌≡◌, ◌<◌, length, Some};
ghost use Rattle.dom_tree.specs.Order.{has_id_in, node_by_id, node_by_path};
ghost use Rattle.dom_tree.specs.inner.Kept.{nodes_of, bare, IsLinked};

use crate::kin::{child_at, next_within};
use crate::parts::{Kind, NodeData};
use crate::words::same_text;
use mug_text::JText;

// Whether a node is an element with this id.
fn has_id(node: &NodeData, id: &JText) -> bool
    ensures { result ≡ has_id_in id.now (Some (bare node.now)) }
{
    match &node.kind {
        Kind::Element(_) => match node.attributes.value_of(b"id") {
            Some(value) => same_text(value, id),
            None => false,
        },
        _ => false,
    }
}

/// The first element of the document with this id.
pub(crate) fn node_by_id(nodes: &[NodeData], id: &JText) -> Option<u32>
    requires { IsLinked nodes.now }
    ensures { result ≡ node_by_id (nodes_of nodes.now) id.now }
{
    let mut here: u32 = 0;
    'walk: while let Some(node) = next_within(nodes, 0, here) {
        if has_id(&nodes[node as usize], id) {
            return Some(node);
        }
        here = node;
    }
    None
}

/// The node that child numbers lead to from the document.
pub(crate) fn node_by_path(nodes: &[NodeData], path: &[u32]) -> Option<u32>
    requires { IsLinked nodes.now }
    ensures { result ≡ node_by_path (nodes_of nodes.now) path.now }
{
    let mut node: u32 = 0;
    for number in path {
        match child_at(nodes, node, *number) {
            Some(child) => node = child,
            None => return None,
        }
    }
    Some(node)
}
