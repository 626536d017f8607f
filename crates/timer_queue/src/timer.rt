// A timer.
ghost use Rattle.std.specs.Prelude.{◌≡◌, ◌<◌};
ghost use Rattle.std.specs.Option.{ForSome};
ghost use Rattle.mug_text.specs.declared.limits.TheConstants.{SAFE_END};
ghost use Rattle.timer_queue.specs.Queue as queue;

use js_value::Callable;

/// A timer that is set.
#[derive(Clone, Copy, Debug, PartialEq, Eq)]
pub struct Timer {
    /// Its number, from 1 on.
    pub id: u32,
    /// What it calls.
    pub f: Callable,
    /// The moment from which on it may fire, in milliseconds.
    pub due: u64,
    /// The delay of an interval, in milliseconds; a timeout has none.
    pub every: Option<u64>,
}

impl Timer {
    // The timer after it fired at this clock: an interval is set anew, and a timeout is gone.
    pub(crate) fn set_anew(self, clock: u64) -> Option<Timer>
        requires clock { clock < SAFE_END }
        requires every { ForSome self.every (λ delay. delay < SAFE_END) }
        ensures { result ≡ queue.set_anew clock self }
    {
        let delay = self.every?;
        Some(Timer {
            due: clock + delay.max(1),
            ..self
        })
    }
}
