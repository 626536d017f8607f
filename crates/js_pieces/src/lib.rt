//! What was read and isn't part of a node yet, and the nodes that are made of it (ECMA-262 edition
//! 5.1, clauses 11 to 14, in a profile).
#![tactic(auto)]

mod functions;
mod lists;
mod making;
mod nodes;
mod pieces;
mod statements;

pub use pieces::{Piece, Pieces, ReadBody, WholeText};
