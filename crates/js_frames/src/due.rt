// What a stack does next.
use crate::frame::StmtState;
use js_host::DispatchAt;
use js_operands::Phase;

/// What stands at the top does next.
#[derive(Clone, Copy)]
pub enum Due {
    /// Nothing: a value or a completion stands there, and no frame.
    Ends,
    /// The last frame meets the completion.
    Meets,
    /// The last frame makes its row's step.
    Expression(Phase),
    Statement(StmtState),
    Native,
    Begin(DispatchAt),
    Fresh,
    Dispatch,
}
