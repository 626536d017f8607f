// What holds of timers by the definitions alone. This function does nothing: its clause is the law.
ghost use Rattle.std.specs.Prelude.{ℕ, List};
ghost use Rattle.timer_queue.specs.Queue.{Queue, IsNextDue, next_due};

/// The timer that is next is due, and none comes before it; where there is none, no timer is due.
pub fn the_next_timer_is_the_least()
    ensures { (q : Queue) (clock : ℕ) → IsNextDue clock q (next_due clock q) }
{}
