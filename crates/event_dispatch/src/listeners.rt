// The listeners of a page.
ghost use Rattle.std.specs.Prelude.{◌≡◌, ◌≤◌, ◌==◌, ◌++◌, ◌∷◌, [], not, length, Some, is_some, map, filter, find, slice_get, slice_set, IfOk, IfSome, OnOk, OnErr, MatchOption, drop};
ghost use Rattle.std.specs.Option.{option_copied, option_flatten, option_map, option_map_or};
ghost use Rattle.js_value.specs.Callable.{callable_value};
ghost use Rattle.event_dispatch.specs.Dispatch as dispatch;
ghost use Rattle.event_dispatch.specs.Listeners as spec;
ghost use Rattle.event_dispatch.specs.inner.Places.{Holds, at_places, one_at, pended, present, with_function};

use crate::listener::{Listener, Role, role_of};
use crate::places::{Index, forget, note, places_at};
use crate::turn::{Call, Pending, Phase, Turn};
use js_value::{Callable, ObjId, Value};
use mug_text::{JText, NoMemory};
use std::alloc::{AllocError, Global};
use std::collections::BTreeMap;
use std::marker::Model;

/// The listeners of a page, in the order of adding. One that is gone leaves its number.
#[derive(Debug, Drop)]
pub struct Listeners {
    alloc: Global,
    entries: Vec<Option<Listener>>,
    index: Index,
}

impl Model for Listeners {
    ghost use Rattle.event_dispatch.specs.Listeners.{ListenerList};
    ghost use Rattle.event_dispatch.specs.inner.Places.{Holds, listed};

    ghost Value = { ListenerList };

    ghost view = { λ q. listed q.entries.items };

    ghost invariant = { λ q. Holds q.entries.items q.index };
}

/// The listener at a place.
fn at_place(entries: &[Option<Listener>], place: usize) -> Option<&Listener>
    ensures { option_copied result ≡ option_flatten (slice_get entries.now place) }
{
    if place >= entries.len() {
        return None;
    }
    entries[place].as_ref()
}

fn number_of(listener: Option<&Listener>) -> Option<u64>
    ensures { result ≡ option_map (λ l. l.number) (option_copied listener.entry) }
{
    match listener {
        Some(listener) => Some(listener.number),
        None => None,
    }
}

// The listener at a place, where it was added for the type with this callback.
fn callback_at<'a>(
    entries: &'a [Option<Listener>],
    place: usize,
    kind: &JText,
    f: &Value,
    capture: bool,
) -> Option<&'a Listener>
    ensures { option_copied result
        ≡ find (spec.is_callback kind.now f.now capture) (one_at entries.now place) }
{
    let Some(listener) = at_place(entries, place) else {
        return None;
    };
    if listener.is_callback(kind, f, capture) {
        return Some(listener);
    }
    None
}

// The first of those at these places.
fn callback_among<'a>(
    entries: &'a [Option<Listener>],
    places: &[usize],
    kind: &JText,
    f: &Value,
    capture: bool,
) -> Option<&'a Listener>
    ensures { option_copied result
        ≡ find (spec.is_callback kind.now f.now capture) (at_places entries.now places.now) }
{
    for place in places {
        let found = callback_at(entries, *place, kind, f, capture);
        if found.is_some() {
            return found;
        }
    }
    None
}

// The listener at a place, where it is the handler of the type.
fn handler_at<'a>(
    entries: &'a [Option<Listener>],
    place: usize,
    kind: &JText,
) -> Option<&'a Listener>
    ensures { option_copied result ≡ find (spec.is_handler kind.now) (one_at entries.now place) }
{
    let Some(listener) = at_place(entries, place) else {
        return None;
    };
    if listener.is_handler(kind) {
        return Some(listener);
    }
    None
}

// The first of those at these places.
fn handler_among<'a>(
    entries: &'a [Option<Listener>],
    places: &[usize],
    kind: &JText,
) -> Option<&'a Listener>
    ensures { option_copied result
        ≡ find (spec.is_handler kind.now) (at_places entries.now places.now) }
{
    for place in places {
        let found = handler_at(entries, *place, kind);
        if found.is_some() {
            return found;
        }
    }
    None
}

// Puts the listener at a place behind the others, where it is called for the type on this half of
// the way.
fn push_called(
    copy: &mut Vec<Pending>,
    entries: &[Option<Listener>],
    place: usize,
    kind: &JText,
    phase: Phase,
    down: bool,
) -> Result<(), AllocError>
    ensures { OnOk result (copy.new.items
        ≡ copy.old.items ++ pended phase kind.now down (one_at entries.now place)) }
{
    let Some(listener) = at_place(entries, place) else {
        return Ok(());
    };
    if listener.is_of(kind) && listener.is_half(down) {
        let number = listener.number;
        copy.push(Pending { number, phase })?;
    }
    Ok(())
}

// The same of all these places.
fn push_half(
    copy: &mut Vec<Pending>,
    entries: &[Option<Listener>],
    places: &[usize],
    kind: &JText,
    phase: Phase,
    down: bool,
) -> Result<(), AllocError>
    ensures { OnOk result (copy.new.items
        ≡ copy.old.items ++ pended phase kind.now down (at_places entries.now places.now)) }
{
    for place in places {
        push_called(copy, entries, *place, kind, phase, down)?;
    }
    Ok(())
}

// Puts a listener behind the others.
fn add_entry(
    alloc: Global,
    entries: &mut Vec<Option<Listener>>,
    index: &mut Index,
    listener: Listener,
) -> Result<(), AllocError>
    requires holds { Holds entries.old.items index.old }
    requires number { listener.number ≡ length entries.old.items }
    ensures holds { Holds entries.new.items index.new }
    ensures ok { OnOk result (entries.new.items ≡ entries.old.items ++ Some listener ∷ []) }
    ensures err { OnErr result (entries.new.items ≡ entries.old.items) }
{
    let place = entries.len();
    let owner = listener.owner.number;
    entries.push(Some(listener))?;
    match note(alloc, index, owner, place) {
        Ok(()) => Ok(()),
        Err(fault) => {
            entries.truncate(place);
            Err(fault)
        }
    }
}

// Takes the listener at a place away, where there is one.
fn remove_entry(entries: &mut Vec<Option<Listener>>, index: &mut Index, place: usize)
    requires { Holds entries.old.items index.old }
    ensures holds { Holds entries.new.items index.new }
    ensures present { present entries.new.items
        ≡ filter (λ l. not (l.number == place)) (present entries.old.items) }
    ensures len { length entries.new.items ≡ length entries.old.items }
{
    let Some(listener) = at_place(entries, place) else {
        return;
    };
    let owner = listener.owner.number;
    entries[place] = None;
    forget(index, owner, place);
}

// Gives the listener at a place another function to call, where there is one.
fn replace_entry(entries: &mut Vec<Option<Listener>>, place: usize, f: Callable)
    ensures { entries.new.items ≡ with_function place f entries.old.items }
{
    if place >= entries.len() {
        return;
    }
    if let Some(listener) = &mut entries[place] {
        listener.f = f;
    }
}

/// A call, and how many of a copied list are used up by it.
#[derive(Debug, Drop)]
pub(crate) struct Found {
    pub(crate) call: Call,
    pub(crate) behind: usize,
}

impl Listeners {
    /// No listener.
    pub fn new(alloc: Global) -> Listeners
        ensures { result ≡ spec.no_listeners }
    {
        Listeners {
            alloc,
            entries: Vec::new(alloc),
            index: BTreeMap::new(alloc),
        }
    }

    /// How many listeners were added: their numbers are those below.
    pub fn given(&self) -> u64
        ensures is { result ≡ self.now.given }
        ensures numbers { spec.HasOwnNumbers self.now }
    {
        self.entries.len() as u64
    }

    /// The listener of this number, as it is.
    pub fn listener(&self, number: u64) -> Option<&Listener>
        ensures { option_copied result ≡ spec.listener_of number self.now.listeners }
    {
        at_place(&self.entries, number as usize)
    }

    /// What the object's handler of this type calls.
    pub fn handler(&self, owner: ObjId, kind: &JText) -> Option<Callable>
        ensures { result ≡ spec.handler_of owner kind.now self.now }
    {
        let places = places_at(&self.index, owner.number);
        match handler_among(&self.entries, places, kind) {
            Some(listener) => Some(listener.f),
            None => None,
        }
    }

    /// Adds a listener that is no handler, unless the object has one with the same type, callback
    /// and use of the way down.
    pub fn add(
        &mut self,
        owner: ObjId,
        kind: &JText,
        f: Callable,
        capture: bool,
    ) -> Result<(), NoMemory>
        ensures ok { OnOk result (self.new ≡ spec.added owner kind.now f capture self.old) }
        ensures err { OnErr result (self.new ≡ self.old) }
    {
        let callback = Value::from(f);
        if self
            .callback_number(owner, kind, &callback, capture)
            .is_some()
        {
            return Ok(());
        }
        self.append(owner, kind, f, role_of(capture))
    }

    /// Removes the listener of the object, no handler, with this type, callback and use of the way
    /// down.
    pub fn remove(&mut self, owner: ObjId, kind: &JText, f: &Value, capture: bool)
        ensures { self.new ≡ spec.removed owner kind.now f.now capture self.old }
    {
        match self.callback_number(owner, kind, f, capture) {
            Some(number) => self.take_out(number),
            None => {}
        }
    }

    /// Sets the object's handler of this type: none takes it away, and another function takes its
    /// place.
    pub fn set_handler(
        &mut self,
        owner: ObjId,
        kind: &JText,
        f: Option<Callable>,
    ) -> Result<(), NoMemory>
        ensures ok { OnOk result (self.new ≡ spec.handler_set owner kind.now f self.old) }
        ensures err { OnErr result (self.new ≡ self.old) }
    {
        let number = self.handler_number(owner, kind);
        match f {
            Some(f) => self.put_handler(owner, kind, number, f),
            None => {
                if let Some(number) = number {
                    self.take_out(number);
                }
                Ok(())
            }
        }
    }

    // Gives the handler of this number another function to call, or puts one behind the others.
    fn put_handler(
        &mut self,
        owner: ObjId,
        kind: &JText,
        number: Option<u64>,
        f: Callable,
    ) -> Result<(), NoMemory>
        ensures ok { OnOk result (self.new ≡ option_map_or (λ n. spec.replaced n f self.old) number
            (spec.appended owner kind.now f Role.Handler self.old)) }
        ensures err { OnErr result (self.new ≡ self.old) }
    {
        match number {
            Some(number) => {
                self.replace(number, f);
                Ok(())
            }
            None => self.append(owner, kind, f, Role::Handler),
        }
    }

    // The number of the object's listener with this type, callback and use of the way down.
    fn callback_number(&self, owner: ObjId, kind: &JText, f: &Value, capture: bool) -> Option<u64>
        ensures { result
            ≡ spec.own_number owner (spec.is_callback kind.now f.now capture) self.now }
    {
        let places = places_at(&self.index, owner.number);
        number_of(callback_among(&self.entries, places, kind, f, capture))
    }

    // The number of the object's handler of this type.
    fn handler_number(&self, owner: ObjId, kind: &JText) -> Option<u64>
        ensures { result ≡ spec.own_number owner (spec.is_handler kind.now) self.now }
    {
        let places = places_at(&self.index, owner.number);
        number_of(handler_among(&self.entries, places, kind))
    }

    // Puts a listener behind the others.
    fn append(
        &mut self,
        owner: ObjId,
        kind: &JText,
        f: Callable,
        role: Role,
    ) -> Result<(), NoMemory>
        ensures ok { OnOk result (self.new ≡ spec.appended owner kind.now f role self.old) }
        ensures err { OnErr result (self.new ≡ self.old) }
    {
        let listener = Listener {
            number: self.entries.len() as u64,
            owner,
            kind: kind.copy()?,
            f,
            role,
        };
        add_entry(self.alloc, &mut self.entries, &mut self.index, listener)?;
        Ok(())
    }

    // Takes the listener of this number away.
    fn take_out(&mut self, number: u64)
        ensures { self.new ≡ spec.without number self.old }
    {
        remove_entry(&mut self.entries, &mut self.index, number as usize);
    }

    // Gives the listener of this number another function to call.
    fn replace(&mut self, number: u64, f: Callable)
        ensures { self.new ≡ spec.replaced number f self.old }
    {
        replace_entry(&mut self.entries, number as usize, f);
    }

    /// The list that is copied when an object's turn comes.
    pub(crate) fn copied(&self, turn: Turn, kind: &JText) -> Result<Vec<Pending>, NoMemory>
        ensures { IfOk result (λ copy. copy.items
            ≡ dispatch.copied kind.now turn self.now.listeners) }
    {
        let places = places_at(&self.index, turn.owner.number);
        let mut copy = Vec::new(self.alloc);
        let phase = turn.phase;
        match phase {
            Phase::Capturing => push_half(&mut copy, &self.entries, places, kind, phase, true)?,
            Phase::AtTarget => {
                push_half(&mut copy, &self.entries, places, kind, phase, true)?;
                push_half(&mut copy, &self.entries, places, kind, phase, false)?;
            }
            Phase::Bubbling => push_half(&mut copy, &self.entries, places, kind, phase, false)?,
        }
        Ok(copy)
    }

    /// The first of a copied list that is still there.
    pub(crate) fn first_call(&self, copy: &[Pending]) -> Option<Found>
        ensures first { MatchOption result
            (dispatch.first_call self.now.listeners copy.now ≡ None)
            (λ found. dispatch.first_call self.now.listeners copy.now
            ≡ Some (found.call, drop found.behind copy.now)) }
        ensures within { IfSome result (λ found. found.behind ≤ length copy.now) }
    {
        for (at, pending) in copy.iter().enumerate() {
            match self.call_in(pending) {
                Some(call) => {
                    return Some(Found {
                        call,
                        behind: at + 1,
                    });
                }
                None => {}
            }
        }
        None
    }

    // The call of a listener of a copied list, where it is still there.
    fn call_in(&self, pending: &Pending) -> Option<Call>
        ensures { result ≡ dispatch.call_in self.now.listeners pending.now }
    {
        let Some(listener) = self.listener(pending.number) else {
            return None;
        };
        Some(Call {
            f: listener.f,
            owner: listener.owner,
            phase: pending.phase,
            handler: matches!(listener.role, Role::Handler),
        })
    }
}
