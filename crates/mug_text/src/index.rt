// Texts that are array indices.
ghost use Rattle.std.specs.Prelude.{◌≡◌, ◌↔◌, ◌<◌, length, slice_index, IsTrue, MatchOption};
ghost use Rattle.mug_text.specs.Number.{IsIndex, NoIndex};

use crate::{INDEX_END, JText};

impl JText {
    /// The array index that the text spells, if it spells one.
    pub fn index_of_key(&self) -> Option<u32>
        ensures { MatchOption result (NoIndex self.now) (λ n. IsIndex self.now n) }
    {
        index(self.as_slice())
    }
}

fn index(units: &[u16]) -> Option<u32>
    ensures { MatchOption result (NoIndex units.now) (λ n. IsIndex units.now n) }
{
    if units.is_empty() || is_padded(units) {
        return None;
    }
    let end = u64::from(INDEX_END);
    let mut value = 0u64;
    for unit in units {
        let unit = u64::from(*unit);
        if unit < 48 || unit > 57 {
            return None;
        }
        value = value * 10 + (unit - 48);
        if value >= end {
            return None;
        }
    }
    Some(value as u32)
}

// Whether a zero stands in front that isn't alone.
fn is_padded(units: &[u16]) -> bool
    ensures { IsTrue result ↔ ((slice_index units.now 0 ≡ 48) × (1 < length units.now)) }
{
    units.len() > 1 && units[0] == 48
}
