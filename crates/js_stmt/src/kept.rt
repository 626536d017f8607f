// What a frame keeps.
use js_term::Completion;
use js_value::Value;
use mug_text::{JText, Listed};

/// What a statement's frame keeps for its row beside its operands.
#[derive(Drop)]
pub enum StmtKept {
    Nothing,
    /// A for-in's value, and its names.
    Names { object: Value, names: Listed<JText> },
    /// Over `finally`.
    Completion(Completion),
    /// The object that `new` made.
    Made(Value),
}
