// What code reaches behind the conversions of a node's operands.
use crate::ExprMove;
use js_reference::Answered;

/// What code reaches behind the conversions of a node's operands.
#[derive(Debug, Drop)]
pub enum Reached {
    /// A conversion begins, or the node throws.
    Moves(ExprMove),
    /// The operation's answer.
    Gives(Answered),
}
