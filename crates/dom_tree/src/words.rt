// Texts that are compared and made.
ghost use Rattle.std.specs.Prelude.{◌≡◌, List, [], IfOk};
ghost use Rattle.std.specs.Str.{bytes_eq};

use mug_text::{JText, NoMemory};
use std::alloc::Global;

// Whether two texts have the same units.
pub(crate) fn same_text(a: &JText, b: &JText) -> bool
    ensures { result ≡ bytes_eq a.now b.now }
{
    if a.len() != b.len() {
        return false;
    }
    for index in 0..a.len() {
        if a.unit(index) != b.unit(index) {
            return false;
        }
    }
    true
}

// Whether a text is this word in ASCII.
pub(crate) fn is_word(text: &JText, word: &[u8]) -> bool
    ensures { result ≡ bytes_eq text.now word.now }
{
    if text.len() != word.len() {
        return false;
    }
    for (index, byte) in word.iter().enumerate() {
        if text.unit(index) != u16::from(*byte) {
            return false;
        }
    }
    true
}

// The text without units.
pub(crate) fn no_text(alloc: Global) -> Result<JText, NoMemory>
    ensures { IfOk result (λ text. text ≡ []) }
{
    JText::from_units(alloc, &[])
}
