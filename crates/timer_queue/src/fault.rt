// Why there is no new timer.
ghost use Rattle.std.specs.Prelude.{◌≡◌};

use mug_text::{INDEX_END, NoMemory};
use std::alloc::AllocError;
use thiserror::Error;

/// The numbers that timers are given, from 1 on: at most so many, so that each is an array index.
pub const TIMER_LIMIT: u32 = INDEX_END - 1;

/// Why there is no new timer.
#[derive(Clone, Copy, Debug, PartialEq, Eq, Error)]
pub enum TimerFault {
    /// `TIMER_LIMIT` numbers were given.
    #[error("timers full")]
    Full,
    #[error("out of memory")]
    NoMemory,
}

impl From<NoMemory> for TimerFault {
    ghost use Rattle.timer_queue.specs.declared.fault.TimerFault.TheVariants.{NoMemory as no_memory};

    ghost from_gives = { λ _ fault. fault ≡ no_memory };

    fn from(_error: NoMemory) -> TimerFault {
        TimerFault::NoMemory
    }
}

impl From<AllocError> for TimerFault {
    ghost use Rattle.timer_queue.specs.declared.fault.TimerFault.TheVariants.{NoMemory as no_memory};

    ghost from_gives = { λ _ fault. fault ≡ no_memory };

    fn from(_error: AllocError) -> TimerFault {
        TimerFault::NoMemory
    }
}
