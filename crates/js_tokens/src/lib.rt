//! Tokens: the words, numbers and strings that a script's text is made of (ECMA-262 edition 5.1, clause 7, in a profile).
#![tactic(auto)]

mod gaps;
mod laws;
mod lexer;
mod numbers;
mod reading;
mod strings;
mod token;
mod units;
mod word;

pub use laws::tokens_are_one;
pub use reading::tokens;
pub use token::{LexFault, Token, TokenKind, Tokens};
pub use word::Word;
