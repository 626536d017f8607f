// Tokens, and why a text has none at a place.
ghost use Rattle.std.specs.Prelude.{◌≡◌};

use crate::Word;
use mug_text::{JText, Listed, NoMemory};
use std::alloc::{AllocError, AllocFailed};
use thiserror::Error;

/// What a token is, with its text, its number, or the value of a string.
#[derive(Debug, Drop)]
pub enum TokenKind {
    Name(JText),
    Reserved(JText),
    Punctuator(JText),
    Number(i64),
    Text(JText),
}

/// A token of a text.
#[derive(Debug, Drop)]
pub struct Token {
    pub kind: TokenKind,
    /// The token's first unit.
    pub from: usize,
    /// The unit behind its last.
    pub to: usize,
    pub word: Word,
    /// Whether a line terminator stands between the token before, or the text's start, and this one.
    pub line_before: bool,
}

/// The tokens of a text.
#[derive(Debug, Drop)]
pub struct Tokens {
    pub items: Listed<Token>,
    /// The number of the text's units.
    pub end: usize,
}

/// Why a text has no tokens.
#[derive(Clone, Copy, Debug, PartialEq, Eq, Error)]
pub enum LexFault {
    /// At the first place where no token begins.
    #[error("no token at {at}")]
    NoToken { at: usize },
    #[error("out of memory")]
    NoMemory,
}

impl From<AllocError> for LexFault {
    ghost use Rattle.js_tokens.specs.declared.token.LexFault.TheVariants.{NoMemory as no_memory};

    ghost from_gives = { λ _ fault. fault ≡ no_memory };

    fn from(_error: AllocError) -> LexFault {
        LexFault::NoMemory
    }
}

impl From<NoMemory> for LexFault {
    ghost use Rattle.js_tokens.specs.declared.token.LexFault.TheVariants.{NoMemory as no_memory};

    ghost from_gives = { λ _ fault. fault ≡ no_memory };

    fn from(_error: NoMemory) -> LexFault {
        LexFault::NoMemory
    }
}

// So that `push(..)?` gives it. The refused value is dropped.
impl<T: Drop> From<AllocFailed<T>> for LexFault {
    ghost use Rattle.js_tokens.specs.declared.token.LexFault.TheVariants.{NoMemory as no_memory};

    ghost from_gives = { λ _ fault. fault ≡ no_memory };

    fn from(_error: AllocFailed<T>) -> LexFault {
        LexFault::NoMemory
    }
}
