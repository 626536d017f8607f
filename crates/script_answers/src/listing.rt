// The tokens of a text, as they are printed.
use js_tokens::{Token, TokenKind, Tokens};
use mug_text::NoMemory;
use std::alloc::Global;
use std::fmt::Write;

/// The words of the tokens with their places and values; `^` stands before one with a line terminator in front.
pub(crate) fn listing(alloc: Global, tokens: &Tokens) -> Result<String, NoMemory> {
    let mut out = String::from_str(alloc, "tokens")?;
    for token in tokens.items.as_slice() {
        push_token(token, &mut out)?;
    }
    Ok(out)
}

fn push_token(token: &Token, out: &mut String) -> Result<(), NoMemory> {
    let line = if token.line_before { "^" } else { "" };
    let word = token.word;
    let from = token.from;
    let to = token.to;
    write!(out, " {line}{word:?}@{from}-{to}")?;
    match &token.kind {
        TokenKind::Number(value) => write!(out, "={value}")?,
        TokenKind::Text(text) => push_units(text.as_slice(), out)?,
        _ => {}
    }
    Ok(())
}

fn push_units(units: &[u16], out: &mut String) -> Result<(), NoMemory> {
    out.push_str("=")?;
    for unit in units {
        write!(out, "{unit:04x}")?;
    }
    Ok(())
}
