//! Terms, contraction and its simulation, for any rows and any host, and what the code of rows and
//! of a machine share.
#![tactic(auto)]

mod begun;
mod calls;
mod completion;
mod context;
mod frame_move;
mod laws;
mod operands;

pub use begun::{Begun, begin};
pub use calls::{CalledFunction, called_function, is_refused, target_call};
pub use completion::Completion;
pub use context::Context;
pub use frame_move::Move;
pub use laws::{
    a_contraction_is_of_what_is_due, a_free_move_changes_no_term,
    a_nodes_operands_are_those_of_its_tree, a_place_is_at_the_top, a_resting_frame_makes_its_step,
    a_step_at_the_top_is_the_step, a_term_is_a_row_over_its_operands,
    a_waiting_frame_meets_a_completion, arenas_are_syntax, contraction_commutes_with_the_image,
    syntax_is_its_own_image, three_rows_are_a_table,
};
pub use operands::{Operand, Operands};
