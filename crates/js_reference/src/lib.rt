//! References: names and properties of values, which are read, written and deleted, and the errors
//! that steps throw.
#![tactic(auto)]

mod answered;
mod callables;
mod deletes;
mod error;
mod functions;
mod keys;
mod names;
mod own;
mod reads;
mod room;
mod writes;

pub use answered::Answered;
pub use callables::{as_object, is_callable, is_date, native_of};
pub use deletes::delete;
pub use error::{ErrorName, new_error, thrown};
pub use functions::{FunctionNames, make_function};
pub use keys::keys_in;
pub use names::{name_value, read_name, write_name};
pub use reads::{property, read};
pub use room::{objects_fit, scopes_fit};
pub use writes::{write, write_object};
