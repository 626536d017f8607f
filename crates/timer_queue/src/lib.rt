//! Timers: what a page has set to be called when its clock has come so far (HTML Standard, 8.6).
#![tactic(auto)]

mod fault;
mod laws;
mod slots;
mod timer;
mod timers;

pub use fault::{TIMER_LIMIT, TimerFault};
pub use laws::the_next_timer_is_the_least;
pub use timer::Timer;
pub use timers::Timers;
