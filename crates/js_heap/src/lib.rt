//! Objects and scopes: what a page's programs reach.
#![tactic(auto)]

mod arrays;
mod changes;
mod class;
mod fault;
mod heap;
mod laws;
mod object;
mod objects;
mod root;
mod scope;
mod scopes;

pub use class::{Bound, Class, Code, ScopeId};
pub use fault::{COUNT_LIMIT, HeapFault, PutFault};
pub use heap::Heap;
pub use js_table::Property;
pub use laws::chains_lead_on;
pub use root::Root;
