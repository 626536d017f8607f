// The classes of objects.
use js_value::{NativeId, Num, Value};
use mug_text::Listed;

/// The number of a scope in its heap.
#[derive(Clone, Copy, Debug, PartialEq, Eq)]
pub struct ScopeId {
    pub number: u32,
}

/// What a page function runs: the function that begins at a unit of a text, in a scope. At the top
/// of a text there is none.
#[derive(Clone, Copy, Debug, PartialEq, Eq)]
pub struct Code {
    /// The text's number, in the order in which texts were read.
    pub text: u32,
    /// The function's first unit in the text.
    pub node: u32,
    pub scope: Option<ScopeId>,
}

/// What a bound function calls, with which `this`, and with these arguments before those of its own
/// call (ECMA-262 edition 5.1, 15.3.4.5).
#[derive(Debug, Drop)]
pub struct Bound {
    pub f: Value,
    pub this: Value,
    pub args: Listed<Value>,
}

/// The class of an object, with what the object holds by its class (ECMA-262 edition 5.1, 8.6.2).
#[derive(Debug, Drop)]
pub enum Class {
    Object,
    Array,
    Function(Code),
    Bound(Bound),
    /// A time in milliseconds.
    Date(Num),
    Error,
    Arguments,
    Event,
    /// The object of this node of the document.
    Node(u32),
    /// The object of this request.
    Request(u32),
    /// A built-in object; a call of it runs the native, where it has one.
    Builtin(Option<NativeId>),
}
