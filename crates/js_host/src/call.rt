// What a host is asked, and what it answers.
use js_value::{NativeId, ObjId, Value};
use mug_text::{JText, Listed};

/// A call of a native, or its `new`. What its row converts is converted by now.
#[derive(Debug, Drop)]
pub struct NativeCall {
    pub construct: bool,
    pub this: Value,
    pub args: Listed<Value>,
}

/// A dispatch that begins: the object at which the event is dispatched, and the event's object.
#[derive(Clone, Copy, Debug, PartialEq, Eq)]
pub struct DispatchAt {
    pub target: ObjId,
    pub event: ObjId,
}

/// What a native has the machine do before it goes on.
#[derive(Debug, Drop)]
pub enum Callback {
    Call {
        f: Value,
        this: Value,
        args: Listed<Value>,
    },
    Dispatch(DispatchAt),
    /// To a primitive value, with hint text or with hint number (ECMA-262 edition 5.1, 8.12.8).
    Convert {
        text: bool,
        value: Value,
    },
}

/// Where a native goes on with the answer to its callback: how far it has come, and what it keeps.
#[derive(Debug, Drop)]
pub struct Resume {
    pub id: NativeId,
    pub stage: u32,
    pub kept: Listed<Value>,
}

/// What a native asks of the outside.
#[derive(Clone, Copy, Debug, PartialEq, Eq)]
pub enum Kind {
    /// The clock.
    Now,
    /// A random word.
    Rand,
}

/// An answer of the outside.
#[derive(Clone, Copy, Debug, PartialEq, Eq)]
pub enum Input {
    /// Milliseconds.
    Now(u64),
    Rand(u32),
}

/// What a native comes to.
#[derive(Debug, Drop)]
pub enum Outcome {
    Value(Value),
    Throw(Value),
    Enter(Callback, Resume),
    Needs(Kind),
    NoMemory,
}

/// What a write to a property of an object comes to, where the host may hold the property.
#[derive(Debug, Drop)]
pub enum HostPut {
    /// The property is none of the host's; nothing was done.
    NotHost,
    Put,
    Throw(Value),
    NoMemory,
}

/// The next step of a dispatch.
#[derive(Debug, Drop)]
pub enum NextCall {
    /// A listener is called with the event.
    Call { f: Value, this: Value, event: ObjId },
    /// The dispatch is over; `kept` is false exactly where the default was prevented.
    End { kept: bool },
}

/// A change of what the host holds that no page code asked for.
#[derive(Debug, Drop)]
pub enum Order {
    /// The console line of a throw that nothing caught.
    Uncaught(Value),
    /// A console line.
    Say(JText),
    /// The clock, in milliseconds.
    Clock(u64),
    /// The value of an input or textarea, by its node.
    SetValue(u32, JText),
    /// A timer fires; answers its function.
    Fire(u32),
    /// A request is answered: its number, the status and the body.
    Reply(u32, u16, JText),
    /// A request fails.
    Fail(u32),
    /// A handler is set: the object, the property's name and the value.
    Handler(ObjId, JText, Value),
}
