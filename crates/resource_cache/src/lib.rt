//! The bodies of resources, of which equal ones are kept once.
#![tactic(auto)]

mod cache;
mod places;

pub use cache::Cache;
