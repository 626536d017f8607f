// Why a text is no script.
use js_tokens::LexFault;
use mug_text::NoMemory;
use thiserror::Error;

/// Why a text is no script. Places are units of the text, its length at the end.
#[derive(Clone, Copy, Debug, PartialEq, Eq, Error)]
pub enum SyntaxFault {
    #[error("unexpected at {at}")]
    Unexpected { at: usize },
    /// The first token above the limit of nesting.
    #[error("too deep at {at}")]
    TooDeep { at: usize },
    #[error("out of memory")]
    NoMemory,
}

impl From<NoMemory> for SyntaxFault {
    ghost use Rattle.std.specs.Prelude.{◌≡◌};
    ghost use Rattle.js_parser.specs.declared.fault.SyntaxFault.TheVariants as fault;

    ghost from_gives = { λ _ why. why ≡ fault.NoMemory };

    fn from(_fault: NoMemory) -> SyntaxFault {
        SyntaxFault::NoMemory
    }
}

impl From<LexFault> for SyntaxFault {
    ghost use Rattle.std.specs.Prelude.{◌≡◌};
    ghost use Rattle.js_parser.specs.Readings.{fault_of};

    ghost from_gives = { λ fault why. why ≡ fault_of fault };

    fn from(fault: LexFault) -> SyntaxFault {
        match fault {
            LexFault::NoToken { at } => SyntaxFault::Unexpected { at },
            LexFault::NoMemory => SyntaxFault::NoMemory,
        }
    }
}
