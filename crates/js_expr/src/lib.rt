//! The machine that reads a script's tokens from left to right, and builds its tree (ECMA-262
//! edition 5.1, 7.9 and clauses 11 to 14, in a profile).
#![tactic(auto)]

mod reading;
mod trees;

pub use reading::{Ending, read_tokens};
