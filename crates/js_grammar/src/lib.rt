//! The grammar of scripts (ECMA-262 edition 5.1, 7.9 and clauses 11 to 14, in a profile): its productions, what they derive,
//! where semicolons are inserted, and where a text is refused.
#![tactic(auto)]

mod laws;
mod precedence;
mod sight;
mod symbol;

pub use laws::{
    a_refusal_is_the_first, a_verdict_is_one, an_answer_is_one, an_end_is_the_answer,
    each_text_has_one_answer, too_deep_is_the_first,
};
pub use precedence::{
    an_expression_comes_first, an_expression_is_anywhere, an_operation_is_one,
    an_operation_is_written,
};
pub use sight::{Names, Seen, Sight};
pub use symbol::{Build, Form, Nonterminal, Open, Start, Symbol};
