//! The stack of a machine: frames, and their moves up to what is due, none of which changes the term
//! that the stack stands for.
#![tactic(auto)]

mod due;
mod frame;
mod laws;
mod moves;
mod rows;
mod stack;
mod texts;

pub use due::Due;
pub use frame::{Contexts, Focus, Frame, FreshEvent, Site, StmtState, Work};
pub use laws::{frames_wait_as_in_any_table, the_last_frame_makes_the_step};
pub use rows::{expression_row, statement_row, unit_of};
pub use stack::{Stack, copied_context};
pub use texts::Texts;
