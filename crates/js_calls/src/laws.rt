// What holds of texts by the definitions alone. These functions do nothing: their clauses are the
// laws.
ghost use Rattle.std.specs.Prelude.{◌≡◌, ℕ, true, Some, slice_get};
ghost use Rattle.js_tree.specs.Arena.{Arena, Filled, IsOrdered, function_at};
ghost use Rattle.js_tree.specs.Runs.{IsRunnableText};
ghost use Rattle.js_tree.specs.TreeAt.{body_at, tree_at};
ghost use Rattle.js_tree.specs.Trees.{Tree};
ghost use Rattle.js_tree.specs.declared.node.NodeId.{NodeId};
ghost use Rattle.js_calls.specs.Texts.{IsProgram, IsRead, body_unit, is_program, last_node};

/// Where every body of a text is filled, by trees, each is the tree of the node that it was read
/// as.
pub fn a_filled_body_is_the_tree_of_its_node()
    ensures { (bodies : ℕ → Tree) (a : Arena) → IsOrdered a → Filled a bodies → (k : ℕ)
        (id : NodeId) → slice_get a.filled k ≡ Some (Some id) → body_at a k ≡ tree_at a id }
{}

/// A text that is run was read: its bodies are the trees of their nodes, and its functions carry
/// the scopes of their trees. If it is a program, it carries the scope of its statements.
pub fn a_runnable_text_is_read()
    ensures functions { (a : Arena) → IsOrdered a → IsRunnableText a → IsRead a }
    ensures program { (a : Arena) → IsRunnableText a → is_program (last_node a) ≡ true
        → IsProgram a }
{}

/// The function that a unit names stands at that unit.
pub fn a_function_stands_at_its_unit()
    ensures { (a : Arena) → IsOrdered a → (unit : ℕ) (id : NodeId)
        → function_at a unit ≡ Some id → body_unit a id ≡ unit }
{}
