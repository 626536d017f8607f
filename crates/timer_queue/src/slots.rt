// Slots for timers, one for each number, as a tree over the list: its root is the slot in the
// middle, and the slots before and behind it are trees again. Each root knows the least moment at
// which a timer of its tree is due.
ghost use Rattle.std.specs.Prelude.{◌≡◌, ◌-◌, ◌+◌, ◌<◌, ◌≤◌, ◌*◌, ◌^◌, ◌++◌, length, replicate, slice_set, None, IfSome, OnOk, OnErr};
ghost use Rattle.std.specs.Option.{option_map};
ghost use Rattle.timer_queue.specs.Queue.{IsDueAmong, number_due, soonest, timer_of};
ghost use Rattle.timer_queue.specs.inner.Slots.{IsKept, AreHalvesKept, AreNumbered, IsLonger, Stands, due_in, first_with, least_due, present, timers_in};

use crate::{TIMER_LIMIT, Timer};
use std::alloc::AllocError;

// No timer is due so late.
const NEVER: u64 = u64::MAX;

/// A place for the timer of a number.
#[derive(Clone, Copy, Debug)]
pub(crate) struct Slot {
    pub(crate) timer: Option<Timer>,
    /// The least moment at which a timer of the tree of which this slot is the root is due.
    pub(crate) least: u64,
}

const VACANT: Slot = Slot {
    timer: None,
    least: NEVER,
};

// The number of the timer.
fn number_of(timer: &Option<Timer>) -> Option<u32>
    ensures { result ≡ option_map (λ t. t.id) timer.now }
{
    match timer {
        Some(timer) => Some(timer.id),
        None => None,
    }
}

// When the timer is due.
fn due_in(timer: &Option<Timer>) -> u64
    ensures { result ≡ due_in timer.now }
{
    match timer {
        Some(timer) => timer.due,
        None => NEVER,
    }
}

// The least moment at which a timer is due.
fn least_due(slots: &[Slot]) -> u64
    requires { IsKept slots.now }
    ensures { result ≡ least_due (timers_in slots.now) }
{
    if slots.is_empty() {
        return NEVER;
    }
    slots[slots.len() / 2].least
}

// The number of the first timer that is due at this moment, before which none is due.
fn first_with(slots: &[Slot], due: u64) -> Option<u32>
    requires kept { IsKept slots.now }
    requires least { due ≤ least_due (timers_in slots.now) }
    requires some { due < NEVER }
    ensures { result ≡ option_map (λ t. t.id) (first_with due (timers_in slots.now)) }
{
    if slots.is_empty() {
        return None;
    }
    let middle = slots.len() / 2;
    let before = &slots[..middle];
    if least_due(before) == due {
        return first_with(before, due);
    }
    let timer = slots[middle].timer;
    if due_in(&timer) == due {
        return number_of(&timer);
    }
    first_with(&slots[middle + 1..], due)
}

// Lets the root know what its halves know.
fn settle(slots: &mut [Slot])
    requires some { 0 < length slots.old }
    requires halves { AreHalvesKept slots.old }
    ensures kept { IsKept slots.new }
    ensures timers { timers_in slots.new ≡ timers_in slots.old }
{
    let middle = slots.len() / 2;
    let before = least_due(&slots[..middle]);
    let behind = least_due(&slots[middle + 1..]);
    let root = &mut slots[middle];
    root.least = due_in(&root.timer).min(before).min(behind);
}

// Puts a timer, or none, into a slot.
#[cycle(put)]
fn put(slots: &mut [Slot], at: usize, timer: Option<Timer>)
    requires within { at < length slots.old }
    requires kept { IsKept slots.old }
    ensures kept { IsKept slots.new }
    ensures timers { timers_in slots.new ≡ slice_set (timers_in slots.old) at timer }
{
    put_below(slots, at, timer);
    settle(slots);
}

// The same, but the root doesn't know of it yet.
#[cycle(put)]
fn put_below(slots: &mut [Slot], at: usize, timer: Option<Timer>)
    requires within { at < length slots.old }
    requires kept { IsKept slots.old }
    ensures halves { AreHalvesKept slots.new }
    ensures timers { timers_in slots.new ≡ slice_set (timers_in slots.old) at timer }
{
    let middle = slots.len() / 2;
    if at < middle {
        put(&mut slots[..middle], at, timer);
        return;
    }
    if at > middle {
        put(&mut slots[middle + 1..], at - middle - 1, timer);
        return;
    }
    let root = &mut slots[middle];
    root.timer = timer;
}

/// The timer of this number.
pub(crate) fn timer_of(slots: &[Slot], id: u32) -> Option<Timer>
    requires { AreNumbered 0 (timers_in slots.now) }
    ensures is { result ≡ timer_of id (present (timers_in slots.now)) }
    ensures within { IfSome result (λ _. (0 < id) × (id ≤ length slots.now)) }
    ensures stands { IfSome result (Stands id) }
{
    if id == 0 {
        return None;
    }
    let at = id as usize - 1;
    if at >= slots.len() {
        return None;
    }
    slots[at].timer
}

/// Puts a timer, or none, into a slot.
pub(crate) fn place(slots: &mut Vec<Slot>, at: usize, timer: Option<Timer>)
    requires within { at < length slots.old.items }
    requires kept { IsKept slots.old.items }
    ensures kept { IsKept slots.new.items }
    ensures timers { timers_in slots.new.items ≡ slice_set (timers_in slots.old.items) at timer }
{
    put(slots, at, timer);
}

/// The number of the timer that fires next at this clock.
pub(crate) fn next_due(slots: &[Slot], clock: u64) -> Option<u32>
    requires kept { IsKept slots.now }
    requires numbered { AreNumbered 0 (timers_in slots.now) }
    ensures is { result ≡ number_due clock (soonest (present (timers_in slots.now))) }
    ensures due { IfSome result (λ id. IsDueAmong id clock (present (timers_in slots.now))) }
{
    let least = least_due(slots);
    if least == NEVER {
        return None;
    }
    if least > clock {
        return None;
    }
    first_with(slots, least)
}

// Slots without timers behind the others; the old tree is the part before the new root.
fn grow(slots: &mut Vec<Slot>) -> Result<(), AllocError>
    requires kept { IsKept slots.old.items }
    requires few { length slots.old.items < TIMER_LIMIT }
    ensures kept { OnOk result (IsKept slots.new.items) }
    ensures timers { OnOk result (timers_in slots.new.items ≡
        timers_in slots.old.items ++ replicate (length slots.old.items + 1) None) }
    ensures err { OnErr result (slots.new.items ≡ slots.old.items) }
{
    let before = slots.len();
    let least = least_due(slots);
    slots.resize(2 * before + 1, VACANT)?;
    slots[before] = Slot { timer: None, least };
    Ok(())
}

/// Makes a slot at this place, where there is none.
pub(crate) fn make_room(slots: &mut Vec<Slot>, at: usize) -> Result<(), AllocError>
    requires kept { IsKept slots.old.items }
    requires next { at ≤ length slots.old.items }
    requires few { at < TIMER_LIMIT }
    ensures kept { OnOk result (IsKept slots.new.items) }
    ensures room { OnOk result (at < length slots.new.items) }
    ensures timers { OnOk result
        (IsLonger (timers_in slots.old.items) (timers_in slots.new.items)) }
    ensures err { OnErr result (slots.new.items ≡ slots.old.items) }
{
    if at < slots.len() {
        return Ok(());
    }
    grow(slots)
}
