// Values.
ghost use Rattle.std.specs.Prelude.{◌≡◌, IfOk};
ghost use Rattle.js_value.specs.Image as value_image;
ghost use Rattle.js_value.specs.Same as value_same;

use crate::Num;
use mug_text::{JText, NoMemory};

/// The number of an object in its heap.
#[derive(Clone, Copy, Debug, PartialEq, Eq)]
pub struct ObjId {
    pub number: u32,
}

/// The number of a native function without an object.
#[derive(Clone, Copy, Debug, PartialEq, Eq)]
pub struct NativeId {
    pub number: u32,
}

/// The number of the hidden function that a wrap enters.
#[derive(Clone, Copy, Debug, PartialEq, Eq)]
pub struct HidId {
    pub number: u32,
}

/// What a wrap calls.
#[derive(Clone, Copy, Debug, PartialEq, Eq)]
pub enum Callee {
    Ref(ObjId),
    Native(NativeId),
}

/// A value of the language (ECMA-262 edition 5.1, clause 8). A wrap acts as its callee, but where it is called, constructed or written to a handler.
#[derive(Debug, Drop)]
pub enum Value {
    Undefined,
    Null,
    Bool(bool),
    Num(Num),
    Text(JText),
    Ref(ObjId),
    Native(NativeId),
    Wrap(HidId, Callee),
}

impl Value {
    /// An equal value; a text shares its units.
    pub fn copy(&self) -> Result<Value, NoMemory>
        ensures { IfOk result (λ v. v ≡ self.now) }
    {
        match self {
            Value::Undefined => Ok(Value::Undefined),
            Value::Null => Ok(Value::Null),
            Value::Bool(b) => Ok(Value::Bool(*b)),
            Value::Num(n) => Ok(Value::Num(*n)),
            Value::Text(t) => Ok(Value::Text(t.copy()?)),
            Value::Ref(o) => Ok(Value::Ref(*o)),
            Value::Native(n) => Ok(Value::Native(*n)),
            Value::Wrap(h, c) => Ok(Value::Wrap(*h, *c)),
        }
    }

    /// What a wrap calls; any other value as it is.
    pub fn image(self) -> Value
        ensures { result ≡ value_image.image self }
    {
        match self {
            Value::Wrap(_, Callee::Ref(o)) => Value::Ref(o),
            Value::Wrap(_, Callee::Native(n)) => Value::Native(n),
            other => other,
        }
    }

    /// Whether the value is neither an object nor a native function, nor a wrap of one.
    pub fn is_primitive(&self) -> bool
        ensures { result ≡ value_image.is_primitive self.now }
    {
        !matches!(self, Value::Ref(_) | Value::Native(_) | Value::Wrap(_, _))
    }

    /// ToBoolean (ECMA-262 edition 5.1, 9.2).
    pub fn to_boolean(&self) -> bool
        ensures { result ≡ value_image.to_boolean self.now }
    {
        match self {
            Value::Undefined | Value::Null => false,
            Value::Bool(b) => *b,
            Value::Num(Num::Whole(n)) => n.get() != 0,
            Value::Num(Num::NaN) => false,
            Value::Text(t) => t.len() != 0,
            Value::Ref(_) | Value::Native(_) | Value::Wrap(_, _) => true,
        }
    }
}

/// The strict equality of the two images (ECMA-262 edition 5.1, 11.9.6).
pub fn same(a: &Value, b: &Value) -> bool
    ensures { result ≡ value_same.same a.now b.now }
{
    match a {
        Value::Undefined => matches!(b, Value::Undefined),
        Value::Null => matches!(b, Value::Null),
        Value::Bool(a) => matches!(b, Value::Bool(b) if a == b),
        Value::Num(a) => matches!(b, Value::Num(b) if a.equals(*b)),
        Value::Text(a) => matches!(b, Value::Text(b) if a == b),
        Value::Ref(a) | Value::Wrap(_, Callee::Ref(a)) => is_object(b, *a),
        Value::Native(a) | Value::Wrap(_, Callee::Native(a)) => is_native(b, *a),
    }
}

// Whether the value is this object, or a wrap of it.
fn is_object(value: &Value, id: ObjId) -> bool
    ensures { result ≡ value_same.same (Value.Ref id) value.now }
{
    match value {
        Value::Ref(o) | Value::Wrap(_, Callee::Ref(o)) => o.number == id.number,
        _ => false,
    }
}

// Whether the value is this native function, or a wrap of it.
fn is_native(value: &Value, id: NativeId) -> bool
    ensures { result ≡ value_same.same (Value.Native id) value.now }
{
    match value {
        Value::Native(n) | Value::Wrap(_, Callee::Native(n)) => n.number == id.number,
        _ => false,
    }
}
