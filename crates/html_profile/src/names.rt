// What the names and attributes of elements say.
ghost use Rattle.std.specs.Prelude.{◌≡◌, List, [], codes, IfOk, Option, map};
ghost use Rattle.std.specs.List.{list_any};
ghost use Rattle.std.specs.Option.{option_map};
ghost use Rattle.std.specs.Str.{bytes_eq};
ghost use Rattle.html_profile.specs.Names.{void_names, handler_names, is_void, is_handler, value_named, is_type_run, is_run, firsts};

use crate::tag::{Attribute, lower};
use mug_text::JText;
use std::alloc::{AllocError, Global};

/// The elements without an end tag.
pub(crate) const VOID: [&str; 14] = [
    "area", "base", "br", "col", "embed", "hr", "img", "input", "link", "meta", "param", "source",
    "track", "wbr",
];

/// The names of attributes whose value is a script, and of the properties that hold such handlers.
pub const HANDLERS: [&str; 19] = [
    "onabort",
    "onblur",
    "onchange",
    "onclick",
    "ondblclick",
    "onerror",
    "onfocus",
    "oninput",
    "onkeydown",
    "onkeypress",
    "onkeyup",
    "onload",
    "onmousedown",
    "onmousemove",
    "onmouseout",
    "onmouseover",
    "onmouseup",
    "onreadystatechange",
    "onsubmit",
];

// Whether the name is one of these.
fn is_among(names: &[&str], name: &[u8]) -> bool
    ensures { result ≡ list_any (λ known. bytes_eq known.now name.now) names.now }
{
    names.iter().any(|known| known.as_bytes() == name)
}

pub(crate) fn is_void(name: &[u8]) -> bool
    ensures { result ≡ is_void name.now }
{
    is_among(&VOID, name)
}

pub(crate) fn is_handler(name: &[u8]) -> bool
    ensures { result ≡ is_handler name.now }
{
    is_among(&HANDLERS, name)
}

// Whether a text is this word in ASCII.
fn is_word(text: &[u16], word: &[u8]) -> bool
    ensures { result ≡ bytes_eq word.now text.now }
{
    if text.len() != word.len() {
        return false;
    }
    for (index, byte) in word.iter().enumerate() {
        if text[index] != u16::from(*byte) {
            return false;
        }
    }
    true
}

// Whether a text in units is one of these words.
fn has_units(words: &[&str], text: &[u16]) -> bool
    ensures { result ≡ list_any (λ word. bytes_eq word.now text.now) words.now }
{
    words.iter().any(|word| is_word(text, word.as_bytes()))
}

/// Whether an attribute or property of this name holds a handler.
pub fn is_handler_name(name: &JText) -> bool
    ensures { result ≡ is_handler name.now }
{
    has_units(&HANDLERS, name.as_slice())
}

/// The value of the attribute of this name.
pub(crate) fn value_named<'a>(attributes: &'a [Attribute], name: &[u8]) -> Option<&'a [u8]>
    ensures { option_map (λ value. value.now) result ≡ value_named name.now attributes.now }
{
    for attribute in attributes {
        if attribute.name.as_slice() == name {
            return Some(attribute.value.as_slice());
        }
    }
    None
}

// Whether a script of this type is run.
fn is_type_run(alloc: Global, value: &[u8]) -> Result<bool, AllocError>
    ensures { IfOk result (λ run. run ≡ is_type_run (Some value.now)) }
{
    let lowered = lower(alloc, value)?;
    let name = lowered.as_slice();
    Ok(
        name == [].as_slice()
            || name == b"text/javascript".as_slice()
            || name == b"application/javascript".as_slice(),
    )
}

/// Whether an element is a script that is run.
pub(crate) fn is_run(
    alloc: Global,
    name: &[u8],
    attributes: &[Attribute],
) -> Result<bool, AllocError>
    ensures { IfOk result (λ run. run ≡ is_run name.now attributes.now) }
{
    if name != b"script".as_slice() {
        return Ok(false);
    }
    match value_named(attributes, b"type") {
        Some(value) => is_type_run(alloc, value),
        None => Ok(true),
    }
}
