// Rows of statements as code has them: what the text says is lent from the script, and what a frame
// keeps from the frame.
use js_heap::ScopeId;
use js_term::Completion;
use js_tree::{Case, Declarator, Guarded, NodeId};
use js_value::Value;
use mug_text::JText;

/// Where the labels stand that are directly around a statement (ECMA-262 edition 5.1, 12.12).
#[derive(Clone, Copy)]
pub struct Labelling {
    /// The outermost labelled statement directly around the statement, or the statement itself.
    pub outermost: NodeId,
    pub statement: NodeId,
}

/// The parts of a loop (12.6.1 to 12.6.3).
#[derive(Clone, Copy)]
pub struct LoopParts {
    pub start: Option<NodeId>,
    pub test: Option<NodeId>,
    pub update: Option<NodeId>,
    pub body: NodeId,
    pub labelling: Labelling,
}

/// The parts of a for-in but its value (12.6.4).
#[derive(Clone, Copy)]
pub struct ForInParts<'a> {
    pub name: &'a JText,
    pub body: NodeId,
    pub labelling: Labelling,
}

/// The parts of a switch but its value (12.11).
#[derive(Clone, Copy)]
pub struct SwitchParts<'a> {
    pub clauses: &'a [Case],
    pub labelling: Labelling,
}

/// A node of a statement with what its text says, in one of its phases.
#[derive(Clone, Copy)]
pub enum StmtRow<'a> {
    /// It is finished as its operands are.
    Free,
    /// At the declarator of this place.
    Var {
        declarators: &'a [Declarator],
        at: usize,
    },
    If {
        then: NodeId,
        otherwise: Option<NodeId>,
    },
    DoWhile(LoopParts),
    While(LoopParts),
    For(LoopParts),
    LoopStart(LoopParts),
    LoopTest(LoopParts),
    LoopBody(LoopParts),
    LoopUpdate(LoopParts),
    ForIn(ForInParts<'a>),
    /// Of these names of the value so many are passed.
    ForInNames {
        parts: ForInParts<'a>,
        object: &'a Value,
        names: &'a [JText],
        passed: usize,
    },
    Continue(&'a Option<JText>),
    Break(&'a Option<JText>),
    Return,
    Throw,
    Labelled {
        label: &'a JText,
        labelling: Labelling,
    },
    Switch(SwitchParts<'a>),
    /// At the test of the clause of this place.
    Case(SwitchParts<'a>, usize),
    SwitchBody(Labelling),
    Try(&'a Guarded),
    Catch(ScopeId, &'a Guarded),
    /// With the completion that is kept.
    Finally(Option<&'a Completion>),
    /// With the object that `new` made.
    Body(Option<&'a Value>),
}
