// What an arrival file says, and why a file says nothing.
use mug_text::{JText, Listed};
use std::fmt;
use thiserror::Error;

/// An arrival file's base and its turns.
#[derive(Debug, Drop)]
pub struct Arrivals {
    pub base: JText,
    pub turns: Listed<Arrival>,
}

/// A turn, with the readings of the clock and the random words that were given for it, in their
/// order.
#[derive(Debug, Drop)]
pub struct Arrival {
    pub turn: Turn,
    pub nows: Listed<u64>,
    pub rands: Listed<u32>,
}

/// What begins a turn.
#[derive(Clone, Copy, Debug, PartialEq, Eq)]
pub enum Turn {
    /// The page is loaded, at `t` milliseconds.
    Load { t: u64 },
}

/// Why bytes are no arrival file.
#[derive(Clone, Copy, Debug, PartialEq, Eq, Error)]
pub enum ArrivalFault {
    /// The first line that breaks a rule, from 1, with the first kind that fits; line 0 stands for
    /// the file.
    #[error("line {line}: {kind}")]
    Line { line: u64, kind: ArrivalKind },
    /// Before any line breaks a rule comes one of a kind that isn't read yet.
    #[error("line {line}: not built yet")]
    NotBuilt { line: u64 },
    #[error("out of memory")]
    NoMemory,
}

/// The rule that a line breaks, in the order in which the rules are tried.
#[derive(Clone, Copy, Debug, PartialEq, Eq)]
pub enum ArrivalKind {
    /// The words and fields of a line, or its line feed.
    Form,
    /// A number's spelling or its range.
    Number,
    /// More bytes than the limit.
    Size,
    /// A URL that doesn't parse, or that isn't its own serialisation.
    Url,
    /// A resource's URL again.
    Twice,
    /// A line where it may not stand.
    Order,
    /// A body's bytes or their line feed.
    Length,
    /// A field that isn't UTF-8.
    Utf8,
}

impl fmt::Display for ArrivalKind {
    fn fmt<W: fmt::Write>(&self, f: &mut fmt::Formatter<W>) -> fmt::Result {
        f.write_str(match self {
            ArrivalKind::Form => "form",
            ArrivalKind::Number => "number",
            ArrivalKind::Size => "size",
            ArrivalKind::Url => "url",
            ArrivalKind::Twice => "twice",
            ArrivalKind::Order => "order",
            ArrivalKind::Length => "length",
            ArrivalKind::Utf8 => "utf8",
        })
    }
}
