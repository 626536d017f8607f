// Cases of texts.
use crate::answer::first_word;
use mug_text::{JText, Listed, NoMemory, TextFault, decimal_below, digits_number, number_text};
use std::alloc::Global;
use std::cmp::Ordering;
use std::hash::{DefaultHasher, Hash, Hasher};
use written_text::written_text;

/// The answer to a case of a text; none where the word asks none.
pub fn answer(alloc: Global, word: &str, given: &str) -> Result<Option<String>, NoMemory> {
    if word == "utf8" {
        return Ok(Some(read(alloc, given)?));
    }
    if word == "number" {
        return Ok(Some(spelled(alloc, given)?));
    }
    if word == "decimal" {
        let (end, digits) = first_word(given);
        let end = end.parse().unwrap_or(0u64);
        return Ok(Some(format!(in alloc; "{:?}", decimal_below(digits.as_bytes(), end))?));
    }
    if word == "digits" {
        return Ok(Some(digits(alloc, given)?));
    }
    if word == "listed" {
        return Ok(Some(listed(alloc, given)?));
    }
    of_text(alloc, word, given)
}

fn of_text(alloc: Global, word: &str, given: &str) -> Result<Option<String>, NoMemory> {
    if word == "text" {
        return Ok(Some(told(alloc, &written_text(alloc, given)?)?));
    }
    if word == "trim" {
        return Ok(Some(told(alloc, &written_text(alloc, given)?.trim()?)?));
    }
    if word == "index" {
        let index = written_text(alloc, given)?.index_of_key();
        return Ok(Some(format!(in alloc; "{index:?}")?));
    }
    if word == "part" {
        return Ok(Some(part(alloc, given)?));
    }
    if word == "joined" {
        let (front, back) = both(alloc, given)?;
        return Ok(Some(told(alloc, &front.concat(&back)?)?));
    }
    if word == "order" {
        return Ok(Some(order(alloc, given)?));
    }
    Ok(None)
}

// The text of bytes that are written in hexadecimal, or why they are none.
fn read(alloc: Global, given: &str) -> Result<String, NoMemory> {
    let Ok(bytes) = hex::decode(alloc, given) else {
        return Ok(String::from_str(alloc, "no bytes")?);
    };
    match JText::from_utf8(alloc, &bytes) {
        Ok(text) => told(alloc, &text),
        Err(TextFault::NoMemory) => Err(NoMemory),
        Err(fault) => Ok(fault.to_string(alloc)?),
    }
}

/// A text: its units, its bytes in UTF-8 and their number, and as it is shown.
pub fn told(alloc: Global, text: &JText) -> Result<String, NoMemory> {
    let mut bytes = Vec::new(alloc);
    text.to_utf8(&mut bytes)?;
    let coded = match hex::encode(alloc, &bytes) {
        Ok(coded) => coded,
        Err(_) => return Err(NoMemory),
    };
    let mut units = String::new(alloc);
    for unit in text.as_slice() {
        units.push_str(format!(in alloc; "{unit:04x} ")?.as_str())?;
    }
    let len = text.len();
    let size = text.utf8_len();
    let shown = shown(alloc, text)?;
    Ok(format!(in alloc; "{units}| {len} | {coded} | {size} | {shown}")?)
}

/// A text as it is shown.
pub fn shown(alloc: Global, text: &JText) -> Result<String, NoMemory> {
    let mut out = Vec::new(alloc);
    text.shown(&mut out)?;
    match String::from_utf8(out) {
        Ok(shown) => Ok(shown),
        Err(_) => Ok(String::from_str(alloc, "no text")?),
    }
}

// The spelling of a number, and the index that it is.
fn spelled(alloc: Global, given: &str) -> Result<String, NoMemory> {
    let text = number_text(alloc, given.parse().unwrap_or(0i64))?;
    let shown = shown(alloc, &text)?;
    let index = text.index_of_key();
    Ok(format!(in alloc; "{shown} {index:?}")?)
}

fn digits(alloc: Global, given: &str) -> Result<String, NoMemory> {
    let (base, written) = first_word(given);
    let base = base.parse().unwrap_or(10u64).min(16);
    let text = written_text(alloc, written)?;
    Ok(format!(in alloc; "{:?}", digits_number(base, text.as_slice()))?)
}

// The units from one index up to another of a text that is written behind them and is repeated so often.
fn part(alloc: Global, given: &str) -> Result<String, NoMemory> {
    let (from, rest) = first_word(given);
    let (to, rest) = first_word(rest);
    let (doubled, rest) = first_word(rest);
    let mut text = written_text(alloc, rest)?;
    for _ in 0..doubled.parse().unwrap_or(0u8) {
        text = text.concat(&text)?;
    }
    let from = from.parse().unwrap_or(0usize);
    let to = to.parse().unwrap_or(0usize);
    if from > to || to > text.len() {
        return Ok(String::from_str(alloc, "no part")?);
    }
    let part = text.slice(from, to)?;
    let whole = part == text.share(from, to)?;
    let shown = shown(alloc, &part)?;
    Ok(format!(in alloc; "{shown} {whole}")?)
}

// Two texts behind one another.
fn both(alloc: Global, given: &str) -> Result<(JText, JText), NoMemory> {
    let (front, back) = first_word(given);
    Ok((written_text(alloc, front)?, written_text(alloc, back)?))
}

// How two texts stand to one another.
fn order(alloc: Global, given: &str) -> Result<String, NoMemory> {
    let (a, b) = both(alloc, given)?;
    let order = match a.cmp(&b) {
        Ordering::Less => "less",
        Ordering::Equal => "equal",
        Ordering::Greater => "greater",
    };
    let equal = a == b;
    let alike = hash_of(&a) == hash_of(&b);
    Ok(format!(in alloc; "{order} {equal} {alike}")?)
}

fn hash_of(text: &JText) -> u64 {
    let mut state = DefaultHasher::new();
    text.hash(&mut state);
    state.finish()
}

// A list of the numbers that are given, of which the first is taken out and the next one replaced by 7.
fn listed(alloc: Global, given: &str) -> Result<String, NoMemory> {
    let mut list = Listed::new(alloc);
    for word in given.split(' ') {
        list.push(word.parse().unwrap_or(0u32))?;
    }
    let first = list.take_first();
    if !list.is_empty() {
        list.set(0, 7);
    }
    let len = list.len();
    let items = list.into_vec();
    Ok(format!(in alloc; "{first:?} {len} {items:?}")?)
}
