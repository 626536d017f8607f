//! What the rows of expressions and statements are without wraps: laws that each commutes with the
//! plain image.
#![tactic(auto)]

mod laws;

pub use laws::{expressions_commute_with_the_image, statements_commute_with_the_image};
