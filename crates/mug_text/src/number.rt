// The texts of numbers.
ghost use Rattle.std.specs.Prelude.{◌≡◌, IfOk};
ghost use Rattle.mug_text.specs.Number.{spelling};

use crate::{JText, NoMemory};
use itoa::Buffer;
use std::alloc::Global;

/// The decimal spelling of a whole number (ECMA-262 edition 5.1, 9.8.1).
pub fn number_text(alloc: Global, n: i64) -> Result<JText, NoMemory>
    ensures { IfOk result (λ text. text ≡ spelling n) }
{
    let mut buffer = Buffer::new();
    JText::of_ascii(alloc, buffer.format(n).as_bytes())
}
