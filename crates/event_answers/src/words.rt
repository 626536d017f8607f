// The words of a call.
use mug_text::{JText, NoMemory};
use std::alloc::Global;

/// A number; of a word that is none, the largest.
pub fn large(word: Option<&str>) -> u64 {
    match word {
        Some(word) => word.parse::<u64>().unwrap_or(u64::MAX),
        None => u64::MAX,
    }
}

/// A number below 2^32; of a word that is none, the largest.
pub fn small(word: Option<&str>) -> u32 {
    match word {
        Some(word) => word.parse::<u32>().unwrap_or(u32::MAX),
        None => u32::MAX,
    }
}

/// The text that the word is.
pub fn text_of(alloc: Global, word: Option<&str>) -> Result<JText, NoMemory> {
    match JText::from_utf8(alloc, word.unwrap_or("").as_bytes()) {
        Ok(text) => Ok(text),
        Err(_) => Err(NoMemory),
    }
}

/// The word for what there isn't.
pub fn none(alloc: Global) -> Result<String, NoMemory> {
    Ok(String::from_str(alloc, "none")?)
}

/// A number as it is printed, where there is one.
pub fn number_line(alloc: Global, number: Option<u32>) -> Result<String, NoMemory> {
    match number {
        Some(number) => Ok(format!(in alloc; "{number}")?),
        None => none(alloc),
    }
}

/// A text as it is printed.
pub fn text_line(alloc: Global, text: &JText) -> Result<String, NoMemory> {
    let mut bytes = Vec::new(alloc);
    text.shown(&mut bytes)?;
    match String::from_utf8(bytes) {
        Ok(line) => Ok(line),
        Err(_) => Err(NoMemory),
    }
}
