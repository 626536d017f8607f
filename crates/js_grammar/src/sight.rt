// What the choice of a production sees of a text.
use js_tokens::Word;
use mug_text::JText;

/// Whether a name may begin with `$mug`.
#[derive(Clone, Copy, Debug, PartialEq, Eq)]
pub enum Names {
    /// It may not.
    Page,
    Hidden,
}

/// What stands at a place.
#[derive(Clone, Copy, Debug, PartialEq, Eq)]
pub enum Seen {
    Word(Word),
    /// A name that is none here.
    Forbidden,
    /// The text's end.
    End,
}

/// What is seen at a place of a text: what stands there, and a few facts on what stands around it.
#[derive(Debug, Drop)]
pub struct Sight {
    pub seen: Seen,
    /// A name's or another token's text, a string's value, a number's decimal digits; nothing at the end.
    pub text: JText,
    /// A number literal's value; else 0.
    pub number: i64,
    /// Whether a line terminator stands before it.
    pub line_before: bool,
    /// Whether a colon follows.
    pub colon: bool,
    /// Whether a name, in any number of parentheses, stands here and `in` behind it.
    pub target: bool,
    /// The unit behind the token before; 0 where there is none.
    pub before: usize,
    /// The first unit; at the end the text's length.
    pub from: usize,
}
