//! The native functions of arrays.
#![tactic(auto)]

mod laws;
mod limits;
mod native;
mod source;
mod walk;

pub use laws::{
    array_natives_by_number, edits_on_worked_cases, makers_on_worked_cases, waits_on_worked_cases,
};
pub use limits::INDICES_LIMIT;
pub use native::{ArrayNative, Walking, array_native_of};
pub use source::Source;
pub use walk::Walk;
