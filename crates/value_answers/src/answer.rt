// What is printed for a line: a word for what is asked, and behind it, each behind a space, what it is asked of.
use crate::{operators, texts, values};
use mug_text::NoMemory;
use std::alloc::Global;

pub fn answer_of(alloc: Global, line: &str) -> Result<String, NoMemory> {
    let (word, given) = first_word(line);
    if let Some(shown) = texts::answer(alloc, word, given)? {
        return Ok(shown);
    }
    if let Some(shown) = values::answer(alloc, word, given)? {
        return Ok(shown);
    }
    operators::answer(alloc, word, given)
}

/// The first word of a line, and what stands behind the space behind it.
pub fn first_word(line: &str) -> (&str, &str) {
    line.split_once(' ').unwrap_or((line, ""))
}

/// What a line says that asks nothing.
pub fn no_case(alloc: Global) -> Result<String, NoMemory> {
    Ok(String::from_str(alloc, "no case")?)
}
