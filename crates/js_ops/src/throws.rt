// What operators throw.
ghost use Rattle.std.specs.Prelude.{◌≡◌};

use mug_text::NoMemory;
use thiserror::Error;

/// A RangeError: a number outside the profile.
#[derive(Clone, Copy, Debug, PartialEq, Eq, Error)]
#[error("number out of range")]
pub struct RangeThrow;

/// Why there is no sum.
#[derive(Clone, Copy, Debug, PartialEq, Eq, Error)]
pub enum AddThrow {
    /// A RangeError: a number outside the profile, or a text above 2^24 units.
    #[error("number or text out of range")]
    Range,
    #[error("out of memory")]
    NoMemory,
}

impl From<NoMemory> for AddThrow {
    ghost use Rattle.js_ops.specs.declared.throws.AddThrow.TheVariants.{NoMemory as no_memory};

    ghost from_gives = { λ _ throw. throw ≡ no_memory };

    fn from(_error: NoMemory) -> AddThrow {
        AddThrow::NoMemory
    }
}

impl From<RangeThrow> for AddThrow {
    ghost use Rattle.js_ops.specs.declared.throws.AddThrow.TheVariants.{Range as range};

    ghost from_gives = { λ _ throw. throw ≡ range };

    fn from(_error: RangeThrow) -> AddThrow {
        AddThrow::Range
    }
}
