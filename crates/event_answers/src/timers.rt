// What timers come to.
use crate::words::{large, none, number_line};
use js_value::{Callable, ObjId};
use mug_text::{NoMemory, SAFE_END};
use std::alloc::Global;
use timer_queue::{Timer, TimerFault, Timers};

/// What each of the calls answers, and the timers that are left.
pub fn left(alloc: Global, calls: &str) -> Result<String, NoMemory> {
    let mut timers = Timers::new(alloc);
    let mut out = String::new(alloc);
    for call in calls.split(", ") {
        let answer = answered(alloc, &mut timers, call)?;
        out.push_str(answer.as_str())?;
        out.push_str("; ")?;
    }
    for id in 0..timers.given() {
        if let Some(timer) = timers.timer(id + 1) {
            out.push_str(timer_line(alloc, &timer)?.as_str())?;
        }
    }
    Ok(out)
}

fn answered(alloc: Global, timers: &mut Timers, call: &str) -> Result<String, NoMemory> {
    let mut words = call.split(" ");
    let name = words.next().unwrap_or("");
    let first = large(words.next());
    let second = large(words.next());
    let third = words.next();
    match name {
        "set" => set(alloc, timers, first, second, None),
        "repeat" => set(alloc, timers, first, second, Some(large(third))),
        "clear" => {
            timers.cancel(u32::try_from(first).unwrap_or(u32::MAX));
            Ok(String::from_str(alloc, "ok")?)
        }
        "next" => number_line(alloc, timers.next_due(first)),
        "fire" => fired(alloc, timers, first),
        _ => Ok(String::from_str(alloc, "no call")?),
    }
}

fn set(
    alloc: Global,
    timers: &mut Timers,
    f: u64,
    due: u64,
    every: Option<u64>,
) -> Result<String, NoMemory> {
    let f = Callable::Ref(ObjId {
        number: u32::try_from(f).unwrap_or(0),
    });
    if due >= SAFE_END {
        return Ok(String::from_str(alloc, "too late")?);
    }
    if let Some(delay) = every {
        if delay >= SAFE_END {
            return Ok(String::from_str(alloc, "too late")?);
        }
    }
    added(alloc, timers.add(f, due, every))
}

fn added(alloc: Global, answer: Result<u32, TimerFault>) -> Result<String, NoMemory> {
    match answer {
        Ok(id) => Ok(format!(in alloc; "{id}")?),
        Err(fault) => Ok(format!(in alloc; "{fault}")?),
    }
}

// Fires the timer that is next at this clock.
fn fired(alloc: Global, timers: &mut Timers, clock: u64) -> Result<String, NoMemory> {
    if clock >= SAFE_END {
        return Ok(String::from_str(alloc, "too late")?);
    }
    let Some(id) = timers.next_due(clock) else {
        return none(alloc);
    };
    let f = timers.fired(id, clock);
    match f {
        Callable::Ref(object) => {
            let number = object.number;
            Ok(format!(in alloc; "{id} calls {number}")?)
        }
        _ => Ok(String::from_str(alloc, "calls no object")?),
    }
}

// A timer: its number, when it is due, and its delay.
fn timer_line(alloc: Global, timer: &Timer) -> Result<String, NoMemory> {
    let id = timer.id;
    let due = timer.due;
    match timer.every {
        Some(every) => Ok(format!(in alloc; "{id} due {due} every {every}|")?),
        None => Ok(format!(in alloc; "{id} due {due}|")?),
    }
}
