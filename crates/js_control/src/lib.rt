//! Expressions: one row for each kind of node and each phase of it.
#![tactic(auto)]

mod accesses;
mod assignments;
mod calls;
mod choices;
mod contract;
mod early_steps;
mod laws;
mod literals;
mod operated;
mod operators;
mod updates;

pub use contract::contract_expr;
pub use early_steps::{early, is_early};
pub use laws::{
    requests_look_at_no_place, revised_targets_are_read, rows_stay_over_their_first_operands,
};
