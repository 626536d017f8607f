// An arrival file from its bytes, once from front to back.
ghost use Rattle.std.specs.Prelude.{◌≡◌, ◌≤◌, length, Ok, IfOk, IsTrue, MatchResult, None};
ghost use Rattle.std.specs.Prelude.{option_to_list};
ghost use Rattle.std.specs.Str.{IsAscii};
ghost use Rattle.mug_text.specs.Text.{IsText};
ghost use Rattle.url.specs.Parser.{parse_url};
ghost use Rattle.arrival_file.specs.Lines.{and_then, whole_line};
ghost use Rattle.arrival_file.specs.Format.{Answers, arrivals_of, base_row, header_row};
ghost use Rattle.arrival_file.specs.Format.{is_serialised, url};
ghost use Rattle.arrival_file.specs.Ranges.{InRanges, IsShortText};
ghost use Rattle.arrival_file.specs.inner.Split.{Gives};
ghost use Rattle.arrival_file.specs.declared.stop.Stop.TheVariants as stop;

use crate::fields::{is_word, split_line};
use crate::limits::FILE_LIMIT;
use crate::rows::read_lines;
use crate::stop::{Stop, at_line};
use crate::{Arrival, ArrivalFault, ArrivalKind, Arrivals};
use mug_text::{JText, Listed, NoMemory, TextFault};
use std::alloc::Global;
use std::str;
use url::{ParseError, Url};

// The bytes after the first line.
fn read_header(bytes: &[u8]) -> Result<&[u8], Stop>
    ensures gives { Gives (λ rest. rest.now) result (and_then (whole_line bytes.now) header_row) }
    ensures shorter { IfOk result (λ rest. length rest.now ≤ length bytes.now) }
{
    let line = split_line(bytes)?;
    if is_word(line.word, b"mugshot-arrivals") && is_word(line.field, b"1") {
        Ok(line.after)
    } else {
        Err(Stop::Breaks(ArrivalKind::Form))
    }
}

// Whether the text is a URL's serialisation; an error is the want of memory.
fn is_serialised(alloc: Global, text: &str) -> Result<bool, Stop>
    ensures test { MatchResult result (λ is. is ≡ is_serialised text.now (parse_url None text.now))
        (λ e. e ≡ stop.NoMemory) }
    ensures ascii { IfOk result (λ is. IsTrue is → IsAscii text.now) }
{
    match Url::parse(alloc, text) {
        Ok(url) => Ok(url.as_str() == text),
        Err(ParseError::OutOfMemory) | Err(ParseError::Overflow) => Err(Stop::NoMemory),
        Err(_) => Ok(false),
    }
}

// The text of a URL.
fn url_text(alloc: Global, field: &[u8]) -> Result<JText, Stop>
    ensures gives { Gives (λ text. text) result (url field.now) }
    ensures text { IfOk result (λ text. IsText field.now text) }
{
    let Ok(text) = str::from_utf8(field) else {
        return Err(Stop::Breaks(ArrivalKind::Url));
    };
    if !is_serialised(alloc, text)? {
        return Err(Stop::Breaks(ArrivalKind::Url));
    }
    match JText::from_utf8(alloc, field) {
        Ok(base) => Ok(base),
        Err(TextFault::NotUtf8 { at: _ }) => Err(Stop::Breaks(ArrivalKind::Url)),
        Err(TextFault::NoMemory) => Err(Stop::NoMemory),
    }
}

// The base, and the bytes after its line.
fn read_base(alloc: Global, rest: &[u8]) -> Result<(JText, &[u8]), Stop>
    ensures gives { Gives (λ read. (read.0, read.1.now)) result
        (and_then (whole_line rest.now) base_row) }
    ensures text { IfOk result (λ read. IsShortText (length rest.now) read.0) }
    ensures shorter { IfOk result (λ read. length read.1.now ≤ length rest.now) }
{
    let line = split_line(rest)?;
    if !is_word(line.word, b"base") {
        return Err(Stop::Breaks(ArrivalKind::Form));
    }
    let base = url_text(alloc, line.field)?;
    Ok((base, line.after))
}

// The turns, of which there is one at most.
fn turns_of(alloc: Global, so_far: Option<Arrival>) -> Result<Listed<Arrival>, NoMemory>
    ensures { IfOk result (λ turns. turns ≡ option_to_list so_far) }
{
    let mut turns = Listed::new(alloc);
    if let Some(arrival) = so_far {
        turns.push(arrival)?;
    }
    Ok(turns)
}

/// Reads an arrival file.
pub fn read_arrivals(alloc: Global, bytes: &[u8]) -> Result<Arrivals, ArrivalFault>
    ensures answers { Answers result bytes.now }
    ensures ranges { IfOk result InRanges }
{
    if bytes.len() > FILE_LIMIT {
        return Err(ArrivalFault::Line {
            line: 0,
            kind: ArrivalKind::Size,
        });
    }
    let rest = read_header(bytes).map_err(|stop| at_line(stop, 1))?;
    let (base, rest) = read_base(alloc, rest).map_err(|stop| at_line(stop, 2))?;
    let turns = turns_of(alloc, read_lines(alloc, rest)?)?;
    Ok(Arrivals { base, turns })
}
