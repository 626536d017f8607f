// Nodes that change their parents.
ghost use Rattle.std.specs.Prelude.{◌≡◌, ◌≢◌, ◌<◌, ◌==◌, false, true, length, IfSome, None, Some};
ghost use Rattle.std.specs.List.{list_any};
ghost use Rattle.dom_tree.specs.Nodes.{is_child, ancestors, parent_of, Fits};
ghost use Rattle.dom_tree.specs.Changes.{appended, placed, put_before, removed, would_cycle, changed};
ghost use Rattle.dom_tree.specs.inner.Kept.{nodes_of, IsLinked, with_place, followed, preceded};

use crate::parts::{Kind, Links, NodeData};

/// Whether a node is an ancestor of another.
pub(crate) fn is_above(nodes: &[NodeData], wanted: u32, node: u32) -> bool
    requires linked { IsLinked nodes.now }
    requires node { node < length nodes.now }
    ensures { result ≡ list_any (λ x. x == wanted) (ancestors (nodes_of nodes.now) node) }
{
    let mut above = nodes[node as usize].parent;
    while let Some(x) = above {
        if x == wanted {
            return true;
        }
        above = nodes[x as usize].parent;
    }
    false
}

// Whether a node that may have no children is an ancestor of another; the way up is walked only
// where it has some.
fn holds(nodes: &[NodeData], wanted: u32, node: u32) -> bool
    requires linked { IsLinked nodes.now }
    requires wanted { wanted < length nodes.now }
    requires node { node < length nodes.now }
    ensures { result ≡ list_any (λ x. x == wanted) (ancestors (nodes_of nodes.now) node) }
{
    if nodes[wanted as usize].links.first.is_none() {
        return false;
    }
    is_above(nodes, wanted, node)
}

/// Whether the child can't stand in this parent.
pub(crate) fn would_cycle(nodes: &[NodeData], parent: u32, child: u32) -> bool
    requires linked { IsLinked nodes.now }
    requires parent { parent < length nodes.now }
    requires child { child < length nodes.now }
    ensures { result ≡ would_cycle (nodes_of nodes.now) parent child }
{
    child == parent
        || holds(nodes, child, parent)
        || child == 0
        || matches!(nodes[parent as usize].kind, Kind::Text(_))
}

/// Whether the node is there and a child of this parent.
pub(crate) fn is_child(nodes: &[NodeData], parent: u32, child: u32) -> bool
    ensures { result ≡ is_child (nodes_of nodes.now) parent child }
{
    match nodes.get(child as usize) {
        Some(node) => node.parent == Some(parent),
        None => false,
    }
}

// What stands behind a child, or first in the parent, is now this.
fn follow(nodes: &mut [NodeData], parent: u32, at: Option<u32>, next: Option<u32>)
    requires parent { parent < length nodes.old }
    requires at { IfSome at (λ x. x < length nodes.old) }
    ensures { nodes.new ≡ followed parent at next nodes.old }
{
    match at {
        Some(at) => nodes[at as usize].links.next = next,
        None => nodes[parent as usize].links.first = next,
    }
}

// What stands in front of a child, or last in the parent, is now this.
fn precede(nodes: &mut [NodeData], parent: u32, at: Option<u32>, previous: Option<u32>)
    requires parent { parent < length nodes.old }
    requires at { IfSome at (λ x. x < length nodes.old) }
    ensures { nodes.new ≡ preceded parent at previous nodes.old }
{
    match at {
        Some(at) => nodes[at as usize].links.previous = previous,
        None => nodes[parent as usize].links.last = previous,
    }
}

// The child stands in this parent, or in none, between these two.
fn place(
    nodes: &mut [NodeData],
    child: u32,
    parent: Option<u32>,
    previous: Option<u32>,
    next: Option<u32>,
)
    requires { child < length nodes.old }
    ensures { nodes.new ≡ changed (with_place parent previous next) child nodes.old }
{
    let node = &mut nodes[child as usize];
    node.parent = parent;
    node.links.previous = previous;
    node.links.next = next;
}

/// Takes a node from its parent, if it has one.
pub(crate) fn remove_child(nodes: &mut [NodeData], child: u32)
    requires linked { IsLinked nodes.old }
    requires child { child < length nodes.old }
    ensures is { nodes_of nodes.new ≡ removed child (nodes_of nodes.old) }
    ensures linked { IsLinked nodes.new }
{
    let here = &nodes[child as usize];
    let above = here.parent;
    let Links { previous, next, .. } = here.links;
    match above {
        Some(parent) => {
            follow(nodes, parent, previous, next);
            precede(nodes, parent, next, previous);
            place(nodes, child, None, None, None);
        }
        None => {}
    }
}

// Makes a node that has no parent the last child of this one.
fn link_last(nodes: &mut [NodeData], parent: u32, child: u32)
    requires linked { IsLinked nodes.old }
    requires parent { parent < length nodes.old }
    requires child { child < length nodes.old }
    requires free { parent_of (nodes_of nodes.old) child ≡ None }
    requires fits { Fits (appended parent child (nodes_of nodes.old)) }
    ensures is { nodes_of nodes.new ≡ appended parent child (nodes_of nodes.old) }
    ensures linked { IsLinked nodes.new }
{
    let last = nodes[parent as usize].links.last;
    follow(nodes, parent, last, Some(child));
    precede(nodes, parent, None, Some(child));
    place(nodes, child, Some(parent), last, None);
}

// Makes a node that has no parent a child of this one in front of another.
fn link_before(nodes: &mut [NodeData], parent: u32, child: u32, before: u32)
    requires linked { IsLinked nodes.old }
    requires parent { parent < length nodes.old }
    requires child { child < length nodes.old }
    requires free { parent_of (nodes_of nodes.old) child ≡ None }
    requires before { is_child (nodes_of nodes.old) parent before ≡ true }
    requires fits { Fits (placed (put_before before child) parent child (nodes_of nodes.old)) }
    ensures is { nodes_of nodes.new
        ≡ placed (put_before before child) parent child (nodes_of nodes.old) }
    ensures linked { IsLinked nodes.new }
{
    let previous = nodes[before as usize].links.previous;
    follow(nodes, parent, previous, Some(child));
    precede(nodes, parent, Some(before), Some(child));
    place(nodes, child, Some(parent), previous, Some(before));
}

/// Makes a node the last child of this parent.
pub(crate) fn append_child(nodes: &mut [NodeData], parent: u32, child: u32)
    requires linked { IsLinked nodes.old }
    requires parent { parent < length nodes.old }
    requires child { child < length nodes.old }
    requires valid { would_cycle (nodes_of nodes.old) parent child ≡ false }
    ensures is { nodes_of nodes.new ≡ appended parent child (nodes_of nodes.old) }
    ensures linked { IsLinked nodes.new }
{
    remove_child(nodes, child);
    link_last(nodes, parent, child);
}

/// Makes a node a child of this parent in front of another.
pub(crate) fn insert_child(nodes: &mut [NodeData], parent: u32, child: u32, before: u32)
    requires linked { IsLinked nodes.old }
    requires parent { parent < length nodes.old }
    requires child { child < length nodes.old }
    requires valid { would_cycle (nodes_of nodes.old) parent child ≡ false }
    requires before { is_child (nodes_of nodes.old) parent before ≡ true }
    requires apart { child ≢ before }
    ensures is { nodes_of nodes.new
        ≡ placed (put_before before child) parent child (nodes_of nodes.old) }
    ensures linked { IsLinked nodes.new }
{
    remove_child(nodes, child);
    link_before(nodes, parent, child, before);
}
