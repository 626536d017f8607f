// The parts of a line of cases, from left to right.
use crate::case::{Case, Given};
use mug_text::NoMemory;
use std::alloc::Global;
use written_text::bytes;

/// What the parts of a line print, with ` & ` between them. A part is one of these, where FAILS are
/// the numbers of the calls that fail,
/// with commas, or `-`:
///
/// - `page FAILS BYTES`, `file FAILS BYTES` (the arrival file), `lines FAILS BYTES` (the same
/// behind a first and a second line),
///   `thin FAILS N` (a page of N statements `Date.now()`), `out FAILS`, `err FAILS`: what the
/// commands are given from here on;
/// - `disk WRITES READS BYTES`: another disk, with the writes and syncs and the reads that fail;
/// - `do WORDS`: runs a command, with a space between its words; `held`: prints what the disk
/// holds.
pub fn answer_of(alloc: Global, line: &str) -> Result<String, NoMemory> {
    let mut case = Case::new(alloc);
    let mut out = String::new(alloc);
    for part in line.split(" & ") {
        if let Some(said) = done(alloc, &mut case, part)? {
            if !out.is_empty() {
                out.push_str(" & ")?;
            }
            out.push_str(said.as_str())?;
        }
    }
    Ok(out)
}

// Does a part, and gives what it prints.
fn done(alloc: Global, case: &mut Case, part: &str) -> Result<Option<String>, NoMemory> {
    if part == "held" {
        let held = case.held()?;
        return Ok(Some(held));
    }
    if let Some(words) = part.strip_prefix("do ") {
        let words = words_of(alloc, words)?;
        let said = case.run(&words)?;
        return Ok(Some(said));
    }
    let (name, rest) = part.split_once(" ").unwrap_or((part, ""));
    let (fails, rest) = rest.split_once(" ").unwrap_or((rest, ""));
    let fails = numbers_of(alloc, fails)?;
    set(alloc, case, name, fails, rest)
}

// Sets what the next commands are given.
fn set(
    alloc: Global,
    case: &mut Case,
    name: &str,
    fails: Vec<u64>,
    rest: &str,
) -> Result<Option<String>, NoMemory> {
    match name {
        "page" => case.page = given(alloc, rest, b"", fails)?,
        "thin" => case.page = thin(alloc, rest.parse::<u64>().unwrap_or(0), fails)?,
        "file" => case.arrivals = given(alloc, rest, b"", fails)?,
        "lines" => {
            let first = b"mugshot-arrivals 1\nbase http://a.test/\n";
            case.arrivals = given(alloc, rest, first, fails)?;
        }
        "out" => case.out_fails = fails,
        "err" => case.err_fails = fails,
        "disk" => {
            let (reads, written) = rest.split_once(" ").unwrap_or((rest, ""));
            let reads = numbers_of(alloc, reads)?;
            let held = bytes(alloc, written)?;
            case.hold(held, &fails, &reads)?;
        }
        _ => return Ok(Some(String::from_str(alloc, "no part")?)),
    }
    Ok(None)
}

// These bytes, behind others.
fn given(alloc: Global, written: &str, first: &[u8], fails: Vec<u64>) -> Result<Given, NoMemory> {
    let mut given = first.to_vec(alloc)?;
    given.extend_from_slice(&bytes(alloc, written)?)?;
    Ok(Given {
        bytes: given,
        fails,
    })
}

// A page of a number of statements that read the clock.
fn thin(alloc: Global, count: u64, fails: Vec<u64>) -> Result<Given, NoMemory> {
    let mut bytes = b"<script>Date.now()".to_vec(alloc)?;
    for _ in 1..count {
        bytes.extend_from_slice(b";Date.now()")?;
    }
    bytes.extend_from_slice(b"</script>")?;
    Ok(Given { bytes, fails })
}

// The numbers that commas part; `-` is none.
fn numbers_of(alloc: Global, written: &str) -> Result<Vec<u64>, NoMemory> {
    let mut numbers = Vec::new(alloc);
    for word in written.split(",") {
        if let Ok(number) = word.parse::<u64>() {
            numbers.push(number)?;
        }
    }
    Ok(numbers)
}

// The words that spaces part; `.` stands for no words at all.
fn words_of(alloc: Global, written: &str) -> Result<Vec<String>, NoMemory> {
    let mut words = Vec::new(alloc);
    if written == "." {
        return Ok(words);
    }
    for word in written.split(" ") {
        words.push(String::from_str(alloc, word)?)?;
    }
    Ok(words)
}
