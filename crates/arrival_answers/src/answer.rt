// What is printed for a line.
use arrival_file::{Arrival, ArrivalFault, ArrivalKind, Arrivals, Turn, read_arrivals};
use mug_text::NoMemory;
use std::alloc::Global;
use written_text::bytes;

/// What an arrival file is read as: `file` and its bytes, `lines` and those after its first two
/// lines, `sized` and the number of its bytes, each an `a`. `kind` and a word print a fault of that
/// kind.
pub fn answer_of(alloc: Global, line: &str) -> Result<String, NoMemory> {
    if let Some(written) = line.strip_prefix("file ") {
        return read(alloc, &bytes(alloc, written)?);
    }
    if let Some(written) = line.strip_prefix("lines ") {
        let mut file = Vec::from_slice(alloc, b"mugshot-arrivals 1\nbase http://a.test/\n")?;
        file.extend_from_slice(&bytes(alloc, written)?)?;
        return read(alloc, &file);
    }
    if let Some(size) = line.strip_prefix("sized ") {
        return sized(alloc, size.parse::<usize>().unwrap_or(0));
    }
    match line.strip_prefix("kind ") {
        Some(word) => fault_of(alloc, word),
        None => Ok(String::from_str(alloc, "no file, lines, sized or kind")?),
    }
}

fn read(alloc: Global, bytes: &[u8]) -> Result<String, NoMemory> {
    match read_arrivals(alloc, bytes) {
        Ok(arrivals) => arrivals_line(alloc, &arrivals),
        Err(fault) => Ok(format!(in alloc; "{fault}")?),
    }
}

fn sized(alloc: Global, size: usize) -> Result<String, NoMemory> {
    let bytes = vec![in alloc; b'a'; size]?;
    read(alloc, &bytes)
}

// The base, and each turn with its readings of the clock and its random words.
fn arrivals_line(alloc: Global, arrivals: &Arrivals) -> Result<String, NoMemory> {
    let mut base = Vec::new(alloc);
    arrivals.base.shown(&mut base)?;
    let mut out = String::from_str(alloc, "base ")?;
    for byte in &base {
        out.push(char::from(*byte))?;
    }
    for arrival in arrivals.turns.as_slice() {
        out.push_str(turn_words(alloc, arrival)?.as_str())?;
    }
    Ok(out)
}

fn turn_words(alloc: Global, arrival: &Arrival) -> Result<String, NoMemory> {
    let mut out = match arrival.turn {
        Turn::Load { t } => format!(in alloc; " load {t}")?,
    };
    for v in arrival.nows.as_slice() {
        out.push_str(format!(in alloc; " now {v}")?.as_str())?;
    }
    for w in arrival.rands.as_slice() {
        out.push_str(format!(in alloc; " rand {w}")?.as_str())?;
    }
    Ok(out)
}

// A fault of this kind at line 7, as it is printed.
fn fault_of(alloc: Global, word: &str) -> Result<String, NoMemory> {
    let kind = match word {
        "form" => ArrivalKind::Form,
        "number" => ArrivalKind::Number,
        "size" => ArrivalKind::Size,
        "url" => ArrivalKind::Url,
        "twice" => ArrivalKind::Twice,
        "order" => ArrivalKind::Order,
        "length" => ArrivalKind::Length,
        "utf8" => ArrivalKind::Utf8,
        _ => return Ok(String::from_str(alloc, "no kind")?),
    };
    let fault = ArrivalFault::Line { line: 7, kind };
    Ok(format!(in alloc; "{fault}")?)
}
