//! Calls of a page's functions, and what a program declares.
#![tactic(auto)]

mod call_names;
mod call_scope;
mod function_parts;
mod laws;
mod objects;
mod page_calls;
mod programs;

pub use call_names::CallNames;
pub use laws::a_filled_body_is_the_tree_of_its_node;
pub use page_calls::{Entered, call_function};
pub use programs::declare_program;
