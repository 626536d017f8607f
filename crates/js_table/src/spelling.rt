// Numbers as names, without a text.
ghost use Rattle.std.specs.Prelude.{◌≡◌, ◌≤◌, decimal, length, take};

use itoa::Buffer;
use std::marker::Model;

// The digits of the longest number of 32 bits.
const DIGITS: usize = 10;

/// The decimal spelling of a number of 32 bits.
#[derive(Drop)]
pub struct Spelling {
    units: [u16; DIGITS],
    len: usize,
}

impl Model for Spelling {
    ghost use Rattle.std.specs.Prelude.{ℕ, ◌≤◌, List, length, take};

    ghost Value = { List ℕ };

    ghost view = { λ s. take s.len s.units };

    ghost invariant = { λ s. s.len ≤ length s.units };
}

impl Spelling {
    /// The spelling of the number, which takes no memory.
    pub fn of(number: u32) -> Spelling
        ensures { result ≡ decimal number }
    {
        let mut units = [0; DIGITS];
        let len = spell(number, &mut units);
        Spelling { units, len }
    }

    pub fn as_slice(&self) -> &[u16]
        ensures { result.now ≡ self.now }
    {
        &self.units[..self.len]
    }
}

// Writes the decimal digits of the number to the front of the units; their count.
fn spell(number: u32, units: &mut [u16; DIGITS]) -> usize
    ensures within { result ≤ length units.new }
    ensures spelled { take result units.new ≡ decimal number }
{
    let mut buffer = Buffer::new();
    let digits = buffer.format(number).as_bytes();
    for (i, digit) in digits.iter().enumerate() {
        units[i] = u16::from(*digit);
    }
    digits.len()
}
