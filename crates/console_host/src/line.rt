// Console lines.
ghost use Rattle.std.specs.Prelude.{◌≡◌, IfOk};

use js_value::Value;
use mug_text::{Listed, NoMemory};
use std::alloc::Global;

/// The number of `console.log`.
pub const CONSOLE_LOG: u32 = 6;

/// A console line, with the values that it shows.
#[derive(Debug, Drop)]
pub enum Line {
    /// The arguments of a `console.log`.
    Log(Listed<Value>),
    /// What was thrown and caught by nothing.
    Uncaught(Value),
}

// Equal values.
pub(crate) fn copies(alloc: Global, values: &Listed<Value>) -> Result<Listed<Value>, NoMemory>
    ensures { IfOk result (λ vs. vs ≡ values.now) }
{
    let mut copies = Listed::new(alloc);
    for value in values.as_slice() {
        copies.push(value.copy()?)?;
    }
    Ok(copies)
}
