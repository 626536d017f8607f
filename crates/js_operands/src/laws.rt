// What holds of rows by their definitions. This function does nothing: its clause is the law.
ghost use Rattle.std.specs.Prelude.{◌≡◌};
ghost use Rattle.js_tree.specs.Arena.{Arena, IsOrdered, node_at};
ghost use Rattle.js_tree.specs.TreeAt.{tree_at};
ghost use Rattle.js_tree.specs.declared.node.NodeId.{NodeId as Number};
ghost use Rattle.js_operands.specs.ArenaRows.{row_of};
ghost use Rattle.js_operands.specs.Syntax.{tree_row};

/// The row that code has of a node is that of its tree.
pub fn a_nodes_row_is_that_of_its_tree()
    ensures { (a : Arena) → IsOrdered a → (id : Number) →
        row_of a (node_at a id) ≡ tree_row (tree_at a id) }
{}
