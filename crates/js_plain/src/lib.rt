//! What a heap and the operations on it are without wraps: laws that each commutes with the plain
//! image.
#![tactic(auto)]

mod laws;

pub use laws::{heaps_commute_with_the_image, operations_commute_with_the_image};
