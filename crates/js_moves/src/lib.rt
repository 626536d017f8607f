//! What a step makes of a stack: the frames, values and completions that come to stand above those
//! that wait, with the term that each of them stands for.
#![tactic(auto)]

mod calls;
mod conversions;
mod expressions;
mod forms;
mod outcomes;
mod parts;
mod statements;

pub use calls::put_call;
pub use conversions::put_conversion;
pub use expressions::put_move;
pub use forms::{put_form, put_next};
pub use outcomes::{enter_callback, put_outcome, put_wait};
pub use parts::{
    awaiting, boxed, expression_frame, form_frame, push_values, put_completion, put_frame,
    put_part, put_value, put_waiting, valued,
};
pub use statements::{enter_body, move_statement};
