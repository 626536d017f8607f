// Why there is no new request.
ghost use Rattle.std.specs.Prelude.{◌≡◌};

use mug_text::{INDEX_END, NoMemory};
use std::alloc::AllocError;
use thiserror::Error;

/// The objects, and the numbers of flights, from 1 on: at most so many of each, so that each number
/// is an array index.
pub const REQUEST_LIMIT: usize = INDEX_END as usize - 1;

/// Why there is no new object, or why none was sent.
#[derive(Clone, Copy, Debug, PartialEq, Eq, Error)]
pub enum RequestFault {
    /// The object isn't opened, or was sent (XMLHttpRequest Standard, InvalidStateError).
    #[error("not opened, or sent")]
    State,
    /// `REQUEST_LIMIT` of them are there.
    #[error("requests full")]
    Full,
    #[error("out of memory")]
    NoMemory,
}

impl From<NoMemory> for RequestFault {
    ghost use Rattle.request_model.specs.declared.fault.RequestFault.TheVariants.{NoMemory as no_memory};

    ghost from_gives = { λ _ fault. fault ≡ no_memory };

    fn from(_error: NoMemory) -> RequestFault {
        RequestFault::NoMemory
    }
}

impl From<AllocError> for RequestFault {
    ghost use Rattle.request_model.specs.declared.fault.RequestFault.TheVariants.{NoMemory as no_memory};

    ghost from_gives = { λ _ fault. fault ≡ no_memory };

    fn from(_error: AllocError) -> RequestFault {
        RequestFault::NoMemory
    }
}
