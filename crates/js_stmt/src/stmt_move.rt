// What a statement's step gives.
use crate::StmtPhase;
use js_term::Completion;
use js_tree::NodeId;
use js_value::Value;
use mug_text::{JText, Listed};

/// What a statement's step gives. After the last three the node goes on with its operands as the
/// step leaves them; after any other it is gone.
#[derive(Drop)]
pub enum StmtMove {
    /// The statement is finished.
    Finished,
    /// What a body gives.
    Value(Value),
    /// A completion, which the node around it meets.
    Abrupt(Completion),
    /// A part of the text stands in the statement's place; none finishes it.
    Becomes(Option<NodeId>),
    /// The statement goes on in this phase.
    GoesOn(StmtPhase),
    /// A for-in goes on with these names of the value, of which none is passed.
    Names { object: Value, names: Listed<JText> },
    /// A try goes on in its `finally`, with the completion that is kept.
    Finally(Option<Completion>),
}
