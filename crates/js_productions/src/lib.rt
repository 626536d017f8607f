//! The table of the grammar's productions in code: what is to be read in the place of a part, and
//! what is seen at a token.
#![tactic(auto)]

mod expressions;
mod jumps;
mod looks;
mod primaries;
mod productions;
mod rows;
mod scans;
mod seeing;
mod stack;
mod statements;

pub use looks::{may_insert, target};
pub use productions::produce;
pub use seeing::{Glance, glance_at};
pub use stack::Stack;
