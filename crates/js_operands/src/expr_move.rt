// What a step of an expression makes of its node.
use crate::{Method, Phase};
use js_host::NativeCall;
use js_tree::NodeId;
use js_value::Value;

/// The conversion of an object, behind one of its steps (ECMA-262 edition 5.1, 8.12.8).
#[derive(Debug, Drop)]
pub enum Conversion {
    /// No method is left, and this is thrown.
    Fails(Value),
    /// The method of the object is called on it. If it answers no primitive value, the one that is
    /// left is tried.
    Tries {
        object: Value,
        method: Value,
        left: Option<Method>,
    },
}

/// What a step of an expression makes of its node. After `GoesOn` and `Converts` the frame stays,
/// with its operands as the step leaves them; after `Calls` they are as they were.
#[derive(Debug, Drop)]
pub enum ExprMove {
    /// The node's value.
    Value(Value),
    /// This is thrown in the node's place.
    Throws(Value),
    /// The node that stands in its place.
    Becomes(NodeId),
    /// A conversion stands in its place.
    Converting(Conversion),
    /// The node goes on, in this phase.
    GoesOn(Phase),
    /// The next of the node's operands to come is in conversion; with the node's phase, where that
    /// is another.
    Converts(Option<Phase>, Conversion),
    /// A call or `new` whose operands are values.
    Calls { f: Value, call: NativeCall },
}
