// The nodes beside, above and below a node.
ghost use Rattle.std.specs.Prelude.{◌≡◌, ◌<◌, length, Some, IfSome};
ghost use Rattle.dom_tree.specs.Nodes.{parent_of, is_in_document};
ghost use Rattle.dom_tree.specs.Order.{first_child, last_child, next_sibling, previous_sibling, next_within, child_at};
ghost use Rattle.dom_tree.specs.inner.Kept.{nodes_of, IsLinked};

use crate::moves::is_above;
use crate::parts::NodeData;

pub(crate) fn first_child(nodes: &[NodeData], node: u32) -> Option<u32>
    requires linked { IsLinked nodes.now }
    requires node { node < length nodes.now }
    ensures is { result ≡ first_child (nodes_of nodes.now) node }
    ensures there { IfSome result (λ child. child < length nodes.now) }
{
    nodes[node as usize].links.first
}

pub(crate) fn last_child(nodes: &[NodeData], node: u32) -> Option<u32>
    requires linked { IsLinked nodes.now }
    requires node { node < length nodes.now }
    ensures { result ≡ last_child (nodes_of nodes.now) node }
{
    nodes[node as usize].links.last
}

pub(crate) fn next_sibling(nodes: &[NodeData], node: u32) -> Option<u32>
    requires linked { IsLinked nodes.now }
    requires node { node < length nodes.now }
    ensures is { result ≡ next_sibling (nodes_of nodes.now) node }
    ensures there { IfSome result (λ x. x < length nodes.now) }
    ensures beside { IfSome result
        (λ x. parent_of (nodes_of nodes.now) x ≡ parent_of (nodes_of nodes.now) node) }
{
    nodes[node as usize].links.next
}

pub(crate) fn previous_sibling(nodes: &[NodeData], node: u32) -> Option<u32>
    requires linked { IsLinked nodes.now }
    requires node { node < length nodes.now }
    ensures is { result ≡ previous_sibling (nodes_of nodes.now) node }
    ensures there { IfSome result (λ x. x < length nodes.now) }
    ensures beside { IfSome result
        (λ x. parent_of (nodes_of nodes.now) x ≡ parent_of (nodes_of nodes.now) node) }
{
    nodes[node as usize].links.previous
}

/// The child of this number, the first being number 0.
pub(crate) fn child_at(nodes: &[NodeData], node: u32, number: u32) -> Option<u32>
    requires linked { IsLinked nodes.now }
    requires node { node < length nodes.now }
    ensures is { result ≡ child_at (nodes_of nodes.now) (Some node) number }
    ensures there { IfSome result (λ child. child < length nodes.now) }
{
    let mut child = first_child(nodes, node);
    'along: for _ in 0..number {
        match child {
            Some(passed) => child = next_sibling(nodes, passed),
            None => return None,
        }
    }
    child
}

/// The node that follows in tree order, as far as the tree below the root goes.
pub(crate) fn next_within(nodes: &[NodeData], root: u32, node: u32) -> Option<u32>
    requires linked { IsLinked nodes.now }
    requires node { node < length nodes.now }
    ensures is { result ≡ next_within (nodes_of nodes.now) root node }
    ensures there { IfSome result (λ next. next < length nodes.now) }
{
    let below = first_child(nodes, node);
    if below.is_some() {
        return below;
    }
    let mut here = node;
    while here != root {
        let beside = next_sibling(nodes, here);
        if beside.is_some() {
            return beside;
        }
        let above = nodes[here as usize].parent;
        match above {
            Some(parent) => here = parent,
            None => return None,
        }
    }
    None
}

/// Whether the node is the document or below it.
pub(crate) fn is_in_document(nodes: &[NodeData], node: u32) -> bool
    requires { IsLinked nodes.now }
    ensures { result ≡ is_in_document (nodes_of nodes.now) node }
{
    node == 0 || ((node as usize) < nodes.len() && is_above(nodes, 0, node))
}
