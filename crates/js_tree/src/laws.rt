// What holds of trees by the definitions alone. These functions do nothing: their clauses are the laws.
ghost use Rattle.std.specs.Prelude.{◌≡◌, ℕ, ◌<◌, List, ◌++◌, length};
ghost use Rattle.js_tree.specs.Trees.{Tree, Part, Holds};
ghost use Rattle.js_tree.specs.Arena.{Arena, Filled, IsOrdered, IsWithin};
ghost use Rattle.js_tree.specs.TreeAt.{body_at, node_with, part_of};
ghost use Rattle.js_tree.specs.declared.script.Kept.{Kept};

/// A part is no two trees.
pub fn a_tree_is_one()
    ensures { (bodies : ℕ → Tree) (kept : List Kept) (p : Part) (t u : Tree) → Holds bodies kept p t → Holds bodies kept p u → t ≡ u }
{}

/// A part that is there is the tree that is computed of it, whatever trees its bodies are.
pub fn a_tree_is_there()
    ensures { (bodies : ℕ → Tree) (arena : Arena) → IsOrdered arena → (p : Part) → IsWithin (length arena.kept) (length arena.pending) p → Holds bodies arena.kept p (part_of (node_with arena.kept bodies) bodies p) }
{}

/// Where every body is filled, by trees, the bodies are the trees that are computed.
pub fn a_body_is_its_tree()
    ensures { (bodies : ℕ → Tree) (arena : Arena) → IsOrdered arena → Filled arena bodies → (k : ℕ) → k < length arena.pending → body_at arena k ≡ bodies k }
{}

/// A part stays the tree that it is where nodes are added.
pub fn added_nodes_keep_trees()
    ensures { (bodies : ℕ → Tree) (kept more : List Kept) (p : Part) (t : Tree) → Holds bodies kept p t → Holds bodies (kept ++ more) p t }
{}
