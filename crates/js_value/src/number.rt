// Numbers.
ghost use Rattle.std.specs.Prelude.{◌≡◌, Some, None, pos, if◌then◌else◌};
ghost use Rattle.js_value.specs.Range.{is_safe, IsSafe};

use mug_text::SAFE_END;
use std::marker::Model;

/// A whole number from -(2^53 - 1) to 2^53 - 1.
#[derive(Clone, Copy, Debug, PartialEq, Eq)]
pub struct Integer {
    value: i64,
}

impl Model for Integer {
    ghost use Rattle.std.specs.Prelude.{ℤ};
    ghost use Rattle.js_value.specs.Range.{IsSafe};

    ghost Value = { ℤ };

    ghost view = { λ n. n.value };

    ghost invariant = { λ n. IsSafe n.value };

    ghost inverse = { λ z. record { value = z } };
}

impl Integer {
    /// The number, where it is in the range.
    pub fn new(value: i128) -> Option<Integer>
        ensures { result ≡ (if is_safe value then Some value else None) }
    {
        if value.unsigned_abs() < u128::from(SAFE_END) {
            Some(Integer {
                value: value as i64,
            })
        } else {
            None
        }
    }

    /// The number.
    pub fn get(self) -> i64
        ensures value { result ≡ self }
        ensures range { IsSafe self }
    {
        self.value
    }
}

impl From<i32> for Integer {
    ghost from_gives = { λ n integer. integer ≡ n };

    fn from(value: i32) -> Integer {
        Integer {
            value: i64::from(value),
        }
    }
}

impl From<u32> for Integer {
    ghost from_gives = { λ n integer. integer ≡ pos n };

    fn from(value: u32) -> Integer {
        Integer {
            value: i64::from(value),
        }
    }
}

/// A number (ECMA-262 edition 5.1, 8.5, without fractions, infinities and -0).
/// The derived equality is that of the representation; that of the language, to which NaN is unlike itself, is `equals`.
#[derive(Clone, Copy, Debug, PartialEq, Eq)]
pub enum Num {
    Whole(Integer),
    NaN,
}

impl Num {
    ghost use Rattle.js_value.specs.Number.{in_profile, num_equal};
    ghost use Rattle.js_value.specs.Numeral.{negated};

    /// The whole number, where it is in the range.
    pub fn whole(value: i128) -> Option<Num>
        ensures { result ≡ in_profile (Num.Whole value) }
    {
        Integer::new(value).map(Num::Whole)
    }

    /// The number with the other sign; 0 has none.
    pub fn negated(self) -> Num
        ensures { result ≡ negated self }
    {
        match self {
            Num::Whole(n) => Num::Whole(Integer { value: -n.value }),
            Num::NaN => Num::NaN,
        }
    }

    /// Whether the two are equal (ECMA-262 edition 5.1, 11.9.6, step 4).
    pub fn equals(self, other: Num) -> bool
        ensures { result ≡ num_equal self other }
    {
        match self {
            Num::Whole(a) => matches!(other, Num::Whole(b) if a.get() == b.get()),
            Num::NaN => false,
        }
    }
}
