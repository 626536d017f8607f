// What a frame's step gives.
use crate::Completion;
use js_host::{Callback, NativeCall};
use js_tree::NodeId;
use js_value::Value;

/// What a frame's step gives. After `Stay`, `Push` and `Enter` the frame stays as the step leaves
/// it; after any other it is gone, and what a `Call` makes stands in its place.
#[derive(Debug, Drop)]
pub enum Move {
    /// The node's value.
    Value(Value),
    /// A completion, which the frame below meets.
    Abrupt(Completion),
    /// A statement that has gone on to the next one.
    Finished,
    /// The node has more steps.
    Stay,
    /// The node has one more operand, which is the next.
    Push(NodeId),
    /// The node waits for the answer to a callback.
    Enter(Callback),
    /// A call or `new` whose operands are values.
    Call { f: Value, call: NativeCall },
}
