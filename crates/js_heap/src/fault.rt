// Why there is no new object or scope, or no new value.
ghost use Rattle.std.specs.Prelude.{◌≡◌};

use mug_text::{INDEX_END, NoMemory};
use thiserror::Error;

/// The objects of a heap, and its scopes: at most so many, so that each number and each count is an
/// array index.
pub const COUNT_LIMIT: usize = INDEX_END as usize - 1;

/// Why there is no new object or scope.
#[derive(Clone, Copy, Debug, PartialEq, Eq, Error)]
pub enum HeapFault {
    /// `COUNT_LIMIT` of them are there.
    #[error("heap full")]
    Full,
    #[error("out of memory")]
    NoMemory,
}

impl From<NoMemory> for HeapFault {
    ghost use Rattle.js_heap.specs.declared.fault.HeapFault.TheVariants.{NoMemory as no_memory};

    ghost from_gives = { λ _ fault. fault ≡ no_memory };

    fn from(_error: NoMemory) -> HeapFault {
        HeapFault::NoMemory
    }
}

/// Why a property isn't given a value.
#[derive(Clone, Copy, Debug, PartialEq, Eq, Error)]
pub enum PutFault {
    /// An array's `length` would be no whole number from 0 to 2^32 - 1.
    #[error("no length of an array")]
    BadLength,
    #[error("out of memory")]
    NoMemory,
}

impl From<NoMemory> for PutFault {
    ghost use Rattle.js_heap.specs.declared.fault.PutFault.TheVariants.{NoMemory as no_memory};

    ghost from_gives = { λ _ fault. fault ≡ no_memory };

    fn from(_error: NoMemory) -> PutFault {
        PutFault::NoMemory
    }
}
