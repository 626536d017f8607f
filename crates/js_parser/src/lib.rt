//! Programs and handlers: whole texts read as scripts (ECMA-262 edition 5.1, clause 14, in a
//! profile).
#![tactic(auto)]

mod fault;
mod reading;

pub use fault::SyntaxFault;
pub use reading::{SCRIPT_LIMIT, read_handler, read_script};
