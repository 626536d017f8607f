// What is printed for a line.
use crate::{dispatch, paths, requests, timers};
use mug_text::NoMemory;
use std::alloc::Global;

/// What the calls of a line answer, and what is left behind them.
pub fn answer_of(alloc: Global, line: &str) -> Result<String, NoMemory> {
    if let Some(calls) = line.strip_prefix("timers ") {
        return timers::left(alloc, calls);
    }
    if let Some(calls) = line.strip_prefix("requests ") {
        return requests::left(alloc, calls);
    }
    if let Some(calls) = line.strip_prefix("dispatch ") {
        return dispatch::left(alloc, calls);
    }
    if let Some(written) = line.strip_prefix("path ") {
        return paths::left(alloc, written);
    }
    Ok(String::from_str(alloc, "no timers, requests, dispatch or path")?)
}
