// The turns of the objects in a path, and the calls.
use js_value::{Callable, ObjId};

/// Where an event is on its way (DOM Standard, 2.2, `eventPhase`).
#[derive(Clone, Copy, Debug, PartialEq, Eq)]
pub enum Phase {
    Capturing,
    AtTarget,
    Bubbling,
}

/// The turn of an object in a pass.
#[derive(Clone, Copy, Debug, PartialEq, Eq)]
pub struct Turn {
    pub owner: ObjId,
    pub phase: Phase,
}

/// A listener of the list that was copied when its object's turn came.
#[derive(Clone, Copy, Debug, PartialEq, Eq)]
pub struct Pending {
    pub number: u64,
    pub phase: Phase,
}

/// What is called next.
#[derive(Clone, Copy, Debug, PartialEq, Eq)]
pub struct Call {
    pub f: Callable,
    /// The object to which the listener belongs.
    pub owner: ObjId,
    pub phase: Phase,
    /// Whether it is a handler, whose answer false prevents the default.
    pub handler: bool,
}
