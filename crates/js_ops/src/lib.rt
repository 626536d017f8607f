//! The operators, and the numbers and texts of primitive values.
#![tactic(auto)]

mod convert;
mod equality;
mod laws;
mod number;
mod operators;
mod throws;

pub use convert::{to_number, to_text};
pub use equality::{Equality, Hint, Side, equal, equal_primitives};
pub use laws::{conversions_look_at_images, rows_look_at_images};
pub use number::{Arith, Bits, to_int32, to_integer, to_uint32};
pub use operators::{add, arith, bits, less};
pub use throws::{AddThrow, RangeThrow};
