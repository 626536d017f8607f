//! Tables of properties: names with their values, in the order in which they were added.
#![tactic(auto)]

mod index;
mod indices;
mod listing;
mod property;
mod slots;
mod spelling;
mod table;

pub use indices::{index_of, is_within};
pub use property::Property;
pub use spelling::Spelling;
pub use table::Table;
