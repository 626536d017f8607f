// The timers of a page.
ghost use Rattle.std.specs.Prelude.{◌≡◌, ◌↔◌, ◌+◌, ◌<◌, ◌≤◌, Some, IfOk, IfSome, OnOk, OnErr};
ghost use Rattle.std.specs.Option.{ForSome, option_map};
ghost use Rattle.mug_text.specs.declared.limits.TheConstants.{SAFE_END};
ghost use Rattle.timer_queue.specs.Queue as queue;

use crate::slots::{Slot, make_room, next_due, place, timer_of};
use crate::{TIMER_LIMIT, Timer, TimerFault};
use js_value::Callable;
use std::alloc::Global;
use std::marker::Model;

/// The timers that are set, in the order of their numbers. A timer that is gone leaves its slot.
#[derive(Debug, Drop)]
pub struct Timers {
    given: u32,
    slots: Vec<Slot>,
}

impl Model for Timers {
    ghost use Rattle.timer_queue.specs.Queue.{Queue};
    ghost use Rattle.timer_queue.specs.inner.Slots.{Holds, present, timers_in};

    ghost Value = { Queue };

    ghost view = { λ q. record { given = q.given; timers = present (timers_in q.slots.items) } };

    ghost invariant = { λ q. Holds q.given q.slots.items };
}

impl Timers {
    /// No timer is set, and no number was given.
    pub fn new(alloc: Global) -> Timers
        ensures { result ≡ queue.no_timers }
    {
        Timers {
            given: 0,
            slots: Vec::new(alloc),
        }
    }

    /// How many numbers were given: those from 1 up to this one.
    pub fn given(&self) -> u32
        ensures given { result ≡ self.now.given }
        ensures few { result ≤ TIMER_LIMIT }
    {
        self.given
    }

    /// The timer of this number.
    pub fn timer(&self, id: u32) -> Option<Timer>
        ensures { result ≡ queue.timer_of id self.now.timers }
    {
        timer_of(&self.slots, id)
    }

    /// Sets a timer that fires from this moment on, once, or again and again after this delay. Its
    /// number is the next one.
    pub fn add(&mut self, f: Callable, due: u64, every: Option<u64>) -> Result<u32, TimerFault>
        requires due { due < SAFE_END }
        requires every { ForSome every (λ delay. delay < SAFE_END) }
        ensures number { IfOk result (λ id. id ≡ self.old.given + 1) }
        ensures added { OnOk result (self.new ≡ queue.added f due every self.old) }
        ensures full { result ≡ Err TimerFault.Full ↔ (TIMER_LIMIT ≤ self.old.given) }
        ensures unchanged { OnErr result (self.new ≡ self.old) }
    {
        if self.given >= TIMER_LIMIT {
            return Err(TimerFault::Full);
        }
        let at = self.given as usize;
        make_room(&mut self.slots, at)?;
        let id = self.given + 1;
        let timer = Timer { id, f, due, every };
        place(&mut self.slots, at, Some(timer));
        self.given = id;
        Ok(id)
    }

    /// Takes the timer of this number away, where there is one.
    pub fn cancel(&mut self, id: u32)
        ensures { self.new ≡ queue.cancelled id self.old }
    {
        match timer_of(&self.slots, id) {
            Some(timer) => place(&mut self.slots, timer.id as usize - 1, None),
            None => {}
        }
    }

    /// The number of the timer that fires next at this clock: of those that are due the one that is
    /// due first, and of these the one of the lowest number.
    pub fn next_due(&self, clock: u64) -> Option<u32>
        ensures is { result ≡ queue.next_due clock self.now }
        ensures due { IfSome result (λ id. queue.IsDue id clock self.now) }
    {
        next_due(&self.slots, clock)
    }

    /// Fires the timer of this number at this clock: a timeout is gone, and an interval fires next
    /// at the clock and the greater of its delay and 1. What is to be called is given.
    pub fn fired(&mut self, id: u32, clock: u64) -> Callable
        requires due { queue.IsDue id clock self.old }
        requires clock { clock < SAFE_END }
        ensures calls { option_map (λ t. t.f) (queue.timer_of id self.old.timers) ≡ Some result }
        ensures after { self.new ≡ queue.fired id clock self.old }
    {
        let Some(timer) = timer_of(&self.slots, id) else {
            unreachable!()
        };
        let after = timer.set_anew(clock);
        place(&mut self.slots, timer.id as usize - 1, after);
        timer.f
    }
}
