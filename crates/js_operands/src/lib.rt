//! Operands: the rows of expressions as data, and what they share of a node's operands: their
//! conversions, keys and references, and what a step makes of its node.
#![tactic(auto)]

mod conversions;
mod expr_move;
mod handlers;
mod keys;
mod laws;
mod moves;
mod reached;
mod references;
mod row;
mod syntax;
mod values;
mod wants;

pub use conversions::{convert_again, convert_row, converting_row, prepared};
pub use expr_move::{Conversion, ExprMove};
pub use handlers::sets_handler;
pub use keys::{delete_keyed, key_of, read_keyed};
pub use laws::a_nodes_row_is_that_of_its_tree;
pub use moves::{assign_next, call_on_base, given, read_before, read_target, type_error};
pub use reached::Reached;
pub use references::{delete_base, read_base, read_variable, write_base, write_variable};
pub use row::{ExprRow, Method, Phase, Side};
pub use syntax::{expr_row_of, later_row};
pub use values::{add_value, add_values, first_values, is_missing, operand};
pub use wants::{Wanted, Wants};
