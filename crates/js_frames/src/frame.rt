// Frames: nodes that have begun.
use js_host::{DispatchAt, Resume};
use js_operands::Phase;
use js_stmt::{StmtKept, StmtPhase};
use js_term::{Completion, Context, Operands};
use js_tree::NodeId;
use js_value::{ObjId, Value};
use mug_text::JText;

/// A node of a text.
#[derive(Clone, Copy, Debug, PartialEq, Eq)]
pub struct Site {
    pub text: u32,
    pub node: NodeId,
}

/// How far a statement is, and the outermost labelled statement directly around it, or the statement
/// itself.
#[derive(Clone, Copy)]
pub struct StmtState {
    pub phase: StmtPhase,
    pub outermost: NodeId,
}

/// A dispatch whose event is made first.
#[derive(Drop)]
pub struct FreshEvent {
    pub target: ObjId,
    pub kind: JText,
    pub bubbles: bool,
    pub cancelable: bool,
}

/// What a frame does with its operands.
#[derive(Drop)]
pub enum Work<D> {
    Expression(Phase),
    Statement(StmtState, StmtKept),
    Native(Box<Resume>),
    Begin(DispatchAt),
    Fresh(Box<FreshEvent>),
    Dispatch(D),
}

/// The contexts of a function's body and of a catch: that in which their operands are evaluated, and
/// that around them.
#[derive(Drop)]
pub struct Contexts {
    pub inner: Context,
    pub outer: Context,
}

/// A node that has begun, and its operands. One that stands in no text is the host's. What evaluates
/// its operands in a context of its own has both contexts.
#[derive(Drop)]
pub struct Frame<D> {
    pub site: Option<Site>,
    pub work: Work<D>,
    pub operands: Operands,
    pub contexts: Option<Box<Contexts>>,
}

/// What stands at the top of a stack: a value or a completion above the frames, or the last frame
/// itself.
#[derive(Drop)]
pub enum Focus {
    Value(Value),
    Abrupt(Completion),
    Resting,
}
