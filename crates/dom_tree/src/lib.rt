//! Documents: the nodes of a page, and the changes that a script makes to them.
#![tactic(auto)]

mod attributes;
mod dom;
mod kin;
mod laws;
mod moves;
mod order;
mod parts;
mod reading;
mod words;
mod writes;

pub use attributes::Attributes;
pub use dom::{Dom, DomFault, NODE_LIMIT};
pub use laws::walk_is_in_tree_order;
pub use parts::{Kind, NewNode, NodeData};
