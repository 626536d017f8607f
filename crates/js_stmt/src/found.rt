// Places in lists of a text.
use js_tree::NodeId;

/// What was found in a list: its place, and the node there.
#[derive(Clone, Copy)]
pub(crate) struct Found {
    pub(crate) at: usize,
    pub(crate) node: NodeId,
}
