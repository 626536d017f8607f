//! What a page is given while it runs.
#![tactic(auto)]

mod input;

pub use input::PageInput;
