// What may be called.
ghost use Rattle.std.specs.Prelude.{◌≡◌};
ghost use Rattle.js_value.specs.Callable.{callable_in};

use crate::{Callee, HidId, NativeId, ObjId, Value};

/// A value that may be called: an object, a native function, or a wrap of one. A copy takes no memory.
/// Whether the object is a function its heap says.
#[derive(Clone, Copy, Debug, PartialEq, Eq)]
pub enum Callable {
    Ref(ObjId),
    Native(NativeId),
    Wrap(HidId, Callee),
}

impl From<Callable> for Value {
    ghost use Rattle.js_value.specs.Callable.{callable_value};

    ghost from_gives = { λ callable value. value ≡ callable_value callable };

    fn from(callable: Callable) -> Value {
        match callable {
            Callable::Ref(o) => Value::Ref(o),
            Callable::Native(n) => Value::Native(n),
            Callable::Wrap(h, c) => Value::Wrap(h, c),
        }
    }
}

impl Value {
    /// The same value, which may be called; None exactly of a primitive value.
    pub fn as_callable(&self) -> Option<Callable>
        ensures { result ≡ callable_in self.now }
    {
        match self {
            Value::Ref(o) => Some(Callable::Ref(*o)),
            Value::Native(n) => Some(Callable::Native(*n)),
            Value::Wrap(h, c) => Some(Callable::Wrap(*h, *c)),
            _ => None,
        }
    }
}
