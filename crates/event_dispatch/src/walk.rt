// A dispatch that is going on.
ghost use Rattle.std.specs.Prelude.{◌≡◌, ◌<◌, [], length, Some, None, slice_get, drop, IfOk, IfNone, IfSome, OnSome, OnErr};
ghost use Rattle.event_dispatch.specs.Dispatch as dispatch;
ghost use Rattle.event_dispatch.specs.Dispatch.{first_call};
ghost use Rattle.event_dispatch.specs.inner.Reached.{Reaches};

use crate::listeners::Listeners;
use crate::turn::{Call, Pending, Phase, Turn};
use js_value::ObjId;
use mug_text::{JText, Listed, NoMemory};
use std::alloc::Global;
use std::marker::Model;

/// What the stop flags of the event say (DOM Standard, 2.2).
#[derive(Clone, Copy, Debug, PartialEq, Eq)]
pub enum Stop {
    /// Nothing.
    Go,
    /// No other object's turn comes (`stopPropagation`).
    AfterObject,
    /// Nothing more is called (`stopImmediatePropagation`).
    Now,
}

/// A dispatch that is going on.
#[derive(Debug, Drop)]
pub struct Walk {
    owners: Vec<ObjId>,
    kind: JText,
    bubbles: bool,
    // How many turns have come.
    done: usize,
    // The list that was copied when the last turn came, and how many of it are used up.
    copy: Vec<Pending>,
    called: usize,
}

impl Model for Walk {
    ghost use Rattle.std.specs.Prelude.{◌≤◌, length, drop};
    ghost use Rattle.event_dispatch.specs.Dispatch.{Dispatch, turns_of};

    ghost Value = { Dispatch };

    ghost view = { λ w. record {
      kind = w.kind;
      left = drop w.called w.copy.items;
      turns = drop w.done (turns_of w.owners.items w.bubbles);
    } };

    ghost invariant = { λ w. w.called ≤ length w.copy.items };
}

// How many turns a path has.
fn turn_count(owners: &[ObjId], bubbles: bool) -> usize
    ensures { result ≡ length (dispatch.turns_of owners.now bubbles) }
{
    if owners.is_empty() {
        return 0;
    }
    let above = owners.len() - 1;
    if bubbles {
        above + owners.len()
    } else {
        owners.len()
    }
}

// The turn of this number.
fn turn(owners: &[ObjId], bubbles: bool, at: usize) -> Turn
    requires { at < length (dispatch.turns_of owners.now bubbles) }
    ensures { slice_get (dispatch.turns_of owners.now bubbles) at ≡ Some result }
{
    let above = owners.len() - 1;
    if at < above {
        return Turn {
            owner: owners[above - at],
            phase: Phase::Capturing,
        };
    }
    if at == above {
        return Turn {
            owner: owners[0],
            phase: Phase::AtTarget,
        };
    }
    Turn {
        owner: owners[at - above],
        phase: Phase::Bubbling,
    }
}

// What is called when an object's turn comes, its copied list with how many of it are used up, and
// how many turns have come by then.
#[derive(Debug, Drop)]
struct Reached {
    call: Call,
    copy: Vec<Pending>,
    called: usize,
    done: usize,
}

// The first turn to come in whose copied list there is somebody to call.
fn reach(
    owners: &[ObjId],
    kind: &JText,
    bubbles: bool,
    done: usize,
    listeners: &Listeners,
) -> Result<Option<Reached>, NoMemory>
    ensures { IfOk result (λ reached. Reaches (dispatch.turns_of owners.now bubbles) done kind.now
        listeners.now.listeners reached) }
{
    for at in done..turn_count(owners, bubbles) {
        let turn = turn(owners, bubbles, at);
        let copy = listeners.copied(turn, kind)?;
        match listeners.first_call(&copy) {
            Some(found) => {
                return Ok(Some(Reached {
                    call: found.call,
                    copy,
                    called: found.behind,
                    done: at + 1,
                }));
            }
            None => {}
        }
    }
    Ok(None)
}

impl Walk {
    /// A dispatch along these objects, which begin with the target, of an event of this type.
    pub fn new(owners: Listed<ObjId>, kind: JText, bubbles: bool) -> Walk
        ensures { result ≡ dispatch.started owners kind bubbles }
    {
        let owners = owners.into_vec();
        let copy = Vec::new(*owners.allocator());
        Walk {
            owners,
            kind,
            bubbles,
            done: 0,
            copy,
            called: 0,
        }
    }

    /// What is called next, where the event's stop flags say this by now; none at the end.
    pub fn next(&mut self, listeners: &Listeners, stop: Stop) -> Result<Option<Call>, NoMemory>
        ensures ok { IfOk result (λ call. record { call = call; after = self.new }
            ≡ dispatch.next listeners.now.listeners stop self.old) }
        ensures err { OnErr result (self.new ≡ dispatch.stopped stop self.old) }
    {
        self.stop(stop);
        if let Some(call) = self.first(listeners) {
            return Ok(Some(call));
        }
        self.come(listeners)
    }

    // The first call of what is left of the copied list.
    fn first(&mut self, listeners: &Listeners) -> Option<Call>
        ensures none { IfNone result (first_call listeners.now.listeners self.old.left ≡ None) }
        ensures unchanged { IfNone result (self.new ≡ self.old) }
        ensures found { IfSome result (λ call. first_call listeners.now.listeners self.old.left
            ≡ Some (call, self.new.left)) }
        ensures others { OnSome result (self.new ≡ record self.old { left = self.new.left }) }
    {
        match listeners.first_call(&self.copy[self.called..]) {
            Some(found) => {
                self.called += found.behind;
                Some(found.call)
            }
            None => None,
        }
    }

    // The first call of the turns to come.
    fn come(&mut self, listeners: &Listeners) -> Result<Option<Call>, NoMemory>
        ensures ok { IfOk result (λ call. record { call = call; after = self.new }
            ≡ dispatch.come listeners.now.listeners self.old.kind self.old.turns) }
        ensures err { OnErr result (self.new ≡ self.old) }
    {
        match reach(&self.owners, &self.kind, self.bubbles, self.done, listeners)? {
            Some(reached) => {
                self.copy = reached.copy;
                self.called = reached.called;
                self.done = reached.done;
                Ok(Some(reached.call))
            }
            None => {
                self.end();
                Ok(None)
            }
        }
    }

    // Leaves nothing.
    fn end(&mut self)
        ensures { self.new ≡ record self.old { left = []; turns = [] } }
    {
        self.done = turn_count(&self.owners, self.bubbles);
        self.called = self.copy.len();
    }

    // Takes the stop flags.
    fn stop(&mut self, stop: Stop)
        ensures { self.new ≡ dispatch.stopped stop self.old }
    {
        match stop {
            Stop::Go => {}
            Stop::AfterObject => self.done = turn_count(&self.owners, self.bubbles),
            Stop::Now => self.end(),
        }
    }
}
