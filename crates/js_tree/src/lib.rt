//! Syntax trees of scripts (ECMA-262 edition 5.1, clauses 11 to 14, in a profile), held in an arena.
#![tactic(auto)]

mod laws;
mod names;
mod node;
mod production;
mod script;
mod walk;

pub use laws::{a_body_is_its_tree, a_tree_is_one, a_tree_is_there, added_nodes_keep_trees};
pub use node::{
    BodyId, Case, Catch, DeclarationHead, Declarator, Declared, Entry, ExpressionHead, Guarded,
    Node, NodeId, Scope,
};
pub use production::{BinaryOperator, Production, UnaryOperator, UpdateOperator};
pub use script::{Braces, FunctionHead, Kept, NODES_END, Pending, Script};
