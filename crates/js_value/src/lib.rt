//! Values: undefined, null, booleans, numbers, texts, objects, native functions, and wraps of the last two.
#![tactic(auto)]

mod callable;
mod laws;
mod number;
mod numeral;
mod value;

pub use callable::Callable;
pub use laws::{callables_are_values, wraps_act_as_their_images};
pub use number::{Integer, Num};
pub use numeral::to_number_of_text;
pub use value::{Callee, HidId, NativeId, ObjId, Value, same};
