//! The table of all rows: expressions, statements, bodies, and the forms of a host and a turn.
#![tactic(auto)]

mod laws;

pub use laws::scripts_take_their_steps;
