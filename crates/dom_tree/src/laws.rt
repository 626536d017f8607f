// What the walk through a document has to do with tree order.
ghost use Rattle.std.specs.Prelude.{◌≡◌, ℕ, ◌≤◌, List, length, Some};
ghost use Rattle.dom_tree.specs.Node.{DomNode};
ghost use Rattle.dom_tree.specs.Nodes.{Fits, way_up};
ghost use Rattle.dom_tree.specs.Order.{in_order, next_within};

/// What `Dom::next_within` gives from the document on, asked again and again, is the document and
/// all in it in tree order, and then nothing, however often it may be asked.
pub fn walk_is_in_tree_order()
    ensures { (nodes : List DomNode) (times : ℕ) → Fits nodes → length (in_order nodes) ≤ times
        → way_up (next_within nodes 0) times (Some 0) ≡ in_order nodes }
{}
