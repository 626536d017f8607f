//! Operations: what operators give of converted operands.
#![tactic(auto)]

mod comparison;
mod hints;
mod instances;
mod literals;
mod membership;
mod numbers;
mod operands;
mod operation;
mod range;
mod types;
mod unary;
mod updates;

pub use hints::{OperandHints, operation_wants, unary_wants};
pub use literals::{array_literal, object_literal};
pub use operands::operate;
pub use operation::{Operation, Relation};
pub use types::{type_of, type_of_option};
pub use unary::unary_operate;
pub use updates::next_number;
