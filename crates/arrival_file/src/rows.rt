// The lines after the first two: a row for each kind.
ghost use Rattle.std.specs.Prelude.{◌≡◌, ◌<◌, ◌≤◌, None, Some, length, IfOk, IfSome};
ghost use Rattle.arrival_file.specs.Lines.{GivesBy, and_then, at, whole_line};
ghost use Rattle.arrival_file.specs.Format.{lines, load, now, number, rand, row};
ghost use Rattle.arrival_file.specs.Ranges.{IsInRange};
ghost use Rattle.arrival_file.specs.declared.arrival.ArrivalFault.TheVariants as arrival_fault;
ghost use Rattle.arrival_file.specs.declared.limits.TheConstants.{FILE_LIMIT};
ghost use Rattle.arrival_file.specs.inner.Split.{Gives, seen};

use crate::fields::{Fields, is_word, split_line};
use crate::limits::WORD_END;
use crate::stop::{Stop, at_line};
use crate::{Arrival, ArrivalFault, ArrivalKind, Turn};
use mug_text::{Listed, SAFE_END, decimal_below};
use std::alloc::Global;

fn number(field: &[u8], end: u64) -> Result<u64, Stop>
    ensures gives { Gives (λ n. n) result (number end field.now) }
    ensures below { IfOk result (λ n. n < end) }
{
    decimal_below(field, end).ok_or(Stop::Breaks(ArrivalKind::Number))
}

fn load(alloc: Global, so_far: Option<Arrival>, field: &[u8]) -> Result<Arrival, Stop>
    ensures { Gives (λ arrival. arrival) result (load so_far field.now) }
{
    let t = number(field, SAFE_END)?;
    match so_far {
        None => Ok(Arrival {
            turn: Turn::Load { t },
            nows: Listed::new(alloc),
            rands: Listed::new(alloc),
        }),
        Some(_) => Err(Stop::Breaks(ArrivalKind::Order)),
    }
}

fn now(so_far: Option<Arrival>, field: &[u8]) -> Result<Arrival, Stop>
    ensures { Gives (λ arrival. arrival) result (now so_far field.now) }
{
    let v = number(field, SAFE_END)?;
    let mut arrival = so_far.ok_or(Stop::Breaks(ArrivalKind::Order))?;
    arrival.nows.push(v)?;
    Ok(arrival)
}

fn rand(so_far: Option<Arrival>, field: &[u8]) -> Result<Arrival, Stop>
    ensures { Gives (λ arrival. arrival) result (rand so_far field.now) }
{
    let w = number(field, WORD_END)?;
    let mut arrival = so_far.ok_or(Stop::Breaks(ArrivalKind::Order))?;
    arrival.rands.push(w as u32)?;
    Ok(arrival)
}

fn row(alloc: Global, so_far: Option<Arrival>, line: Fields<'_>) -> Result<Arrival, Stop>
    ensures { Gives (λ arrival. (Some arrival, line.entry.after.now)) result
        (row so_far (seen line.entry)) }
{
    if is_word(line.word, b"load") {
        load(alloc, so_far, line.field)
    } else if is_word(line.word, b"now") {
        now(so_far, line.field)
    } else if is_word(line.word, b"rand") {
        rand(so_far, line.field)
    } else {
        Err(Stop::Breaks(ArrivalKind::Form))
    }
}

// The turn with a line more, and the bytes after that line.
fn read_line(alloc: Global, so_far: Option<Arrival>, rest: &[u8]) -> Result<(Arrival, &[u8]), Stop>
    ensures gives { Gives (λ read. (Some read.0, read.1.now)) result
        (and_then (whole_line rest.now) (row so_far)) }
    ensures shorter { IfOk result (λ read. length read.1.now < length rest.now) }
{
    let line = split_line(rest)?;
    let arrival = row(alloc, so_far, line)?;
    Ok((arrival, line.after))
}

// The same of the line of this number.
fn read_numbered(
    alloc: Global,
    so_far: Option<Arrival>,
    rest: &[u8],
    number: u64,
) -> Result<(Arrival, &[u8]), ArrivalFault>
    ensures gives { GivesBy arrival_fault.NoMemory (λ read. (Some read.0, read.1.now)) result
        (at number (and_then (whole_line rest.now) (row so_far))) }
    ensures shorter { IfOk result (λ read. length read.1.now < length rest.now) }
{
    read_line(alloc, so_far, rest).map_err(|stop| at_line(stop, number))
}

/// Reads the lines after the first two.
pub fn read_lines(alloc: Global, bytes: &[u8]) -> Result<Option<Arrival>, ArrivalFault>
    requires { length bytes.now ≤ FILE_LIMIT }
    ensures gives { GivesBy arrival_fault.NoMemory (λ so_far. so_far) result
        (lines (length bytes.now) 3 None bytes.now) }
    ensures ranges { IfOk result (λ so_far. IfSome so_far IsInRange) }
{
    let mut so_far = None;
    let mut rest = bytes;
    let mut number = 3;
    while !rest.is_empty() {
        let (arrival, after) = read_numbered(alloc, so_far, rest, number)?;
        so_far = Some(arrival);
        rest = after;
        number += 1;
    }
    Ok(so_far)
}
