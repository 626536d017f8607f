// A listener.
ghost use Rattle.std.specs.Prelude.{◌≡◌};
ghost use Rattle.event_dispatch.specs.Listeners as spec;

use js_value::{Callable, ObjId, Value, same};
use mug_text::JText;

/// What a listener was added as.
#[derive(Clone, Copy, Debug, PartialEq, Eq)]
pub enum Role {
    /// A listener for the way down to the target.
    Capture,
    /// A listener for the way up from it.
    Bubble,
    /// The handler of its object and type, which is called on the way up.
    Handler,
}

/// A listener (DOM Standard, 2.7).
#[derive(Debug, Drop)]
pub struct Listener {
    /// Its number: how many were added before it, those that are gone among them.
    pub number: u64,
    /// The object that it belongs to.
    pub owner: ObjId,
    /// The type of the events for which it is called.
    pub kind: JText,
    /// What it calls.
    pub f: Callable,
    pub role: Role,
}

/// What a listener that is no handler is added as.
pub(crate) fn role_of(capture: bool) -> Role
    ensures { result ≡ spec.role_of capture }
{
    if capture { Role::Capture } else { Role::Bubble }
}

// Whether a listener that is no handler was added as this.
fn is_role(capture: bool, role: Role) -> bool
    ensures { result ≡ spec.is_role capture role }
{
    match role {
        Role::Capture => capture,
        Role::Bubble => !capture,
        Role::Handler => false,
    }
}

impl Listener {
    /// Whether it is called for events of this type.
    pub(crate) fn is_of(&self, kind: &JText) -> bool
        ensures { result ≡ spec.is_of kind.now self.now }
    {
        self.kind == *kind
    }

    /// Whether it is called on the way down, or else on the way up.
    pub(crate) fn is_half(&self, down: bool) -> bool
        ensures { result ≡ spec.is_half down self.now }
    {
        match self.role {
            Role::Capture => down,
            Role::Bubble | Role::Handler => !down,
        }
    }

    /// Whether it was added for this type with this callback, for the way down or not.
    pub(crate) fn is_callback(&self, kind: &JText, f: &Value, capture: bool) -> bool
        ensures { result ≡ spec.is_callback kind.now f.now capture self.now }
    {
        if !self.is_of(kind) || !is_role(capture, self.role) {
            return false;
        }
        let own = Value::from(self.f);
        same(&own, f)
    }

    /// Whether it is the handler of this type.
    pub(crate) fn is_handler(&self, kind: &JText) -> bool
        ensures { result ≡ spec.is_handler kind.now self.now }
    {
        self.is_of(kind) && matches!(self.role, Role::Handler)
    }
}
