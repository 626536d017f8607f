// Nodes: a production with the numbers of its parts.
ghost use Rattle.std.specs.Prelude.{◌≡◌};

use crate::production::{BinaryOperator, UnaryOperator, UpdateOperator};
use mug_text::{JText, Listed};

/// The number of a node in its script.
#[derive(Clone, Copy, Debug, PartialEq, Eq)]
pub struct NodeId {
    pub number: u32,
}

/// The number of a function's body among those of its script.
#[derive(Clone, Copy, Debug, PartialEq, Eq)]
pub struct BodyId {
    pub number: u32,
}

/// A property of an object literal.
#[derive(Debug, Drop)]
pub struct Entry {
    /// A number that stands for a name is its decimal text (ECMA-262 edition 5.1, 11.1.5).
    pub key: JText,
    pub value: NodeId,
}

/// A name of a `var` statement.
#[derive(Debug, Drop)]
pub struct Declarator {
    pub name: JText,
    pub value: Option<NodeId>,
}

/// A clause of a switch; `default` has no test.
#[derive(Debug, Drop)]
pub struct Case {
    pub test: Option<NodeId>,
    pub statements: Listed<NodeId>,
}

/// The catch of a try.
#[derive(Debug, Drop)]
pub struct Catch {
    pub name: JText,
    pub statements: Listed<NodeId>,
}

/// A try: its block, and what stands behind it (12.14).
#[derive(Debug, Drop)]
pub struct Guarded {
    pub block: Listed<NodeId>,
    pub catch: Option<Catch>,
    pub finally: Option<Listed<NodeId>>,
}

/// What stands in front of the body of a function expression (13).
#[derive(Debug, Drop)]
pub struct ExpressionHead {
    pub name: Option<JText>,
    pub parameters: Listed<JText>,
}

/// What stands in front of the body of a function declaration (13).
#[derive(Debug, Drop)]
pub struct DeclarationHead {
    pub name: JText,
    pub parameters: Listed<JText>,
}

/// A function that is declared among statements.
#[derive(Debug, Drop)]
pub struct Declared {
    pub name: JText,
    /// The function's first unit, by which its text knows it.
    pub at: u32,
}

/// The names of a scope, each once and in their order, and what they are (10.5).
#[derive(Debug, Drop)]
pub struct Scope {
    pub names: Listed<JText>,
    /// The declarations, also where several have one name: the last one counts then.
    pub functions: Listed<Declared>,
    /// Whether `arguments` is among the names as the object of a call's arguments.
    pub has_arguments: bool,
    /// Whether a function's own name is among the names as that function.
    pub has_own_name: bool,
}

/// A node of a tree, with one variant for each production (clauses 11 to 14). Parentheses are no node.
#[derive(Debug, Drop)]
pub enum Node {
    This,
    Name(JText),
    Null,
    Bool(bool),
    /// Below `SAFE_END` of `mug_text`.
    Number(i64),
    Text(JText),
    /// An element that isn't there is a hole.
    Array(Listed<Option<NodeId>>),
    Object(Listed<Entry>),
    Function {
        head: Box<ExpressionHead>,
        body: BodyId,
    },
    Member {
        object: NodeId,
        key: JText,
    },
    Index {
        object: NodeId,
        key: NodeId,
    },
    Call {
        callee: NodeId,
        arguments: Listed<NodeId>,
    },
    New {
        callee: NodeId,
        arguments: Listed<NodeId>,
    },
    Postfix {
        operator: UpdateOperator,
        target: NodeId,
    },
    Prefix {
        operator: UpdateOperator,
        target: NodeId,
    },
    Unary {
        operator: UnaryOperator,
        operand: NodeId,
    },
    Binary {
        operator: BinaryOperator,
        left: NodeId,
        right: NodeId,
    },
    And {
        left: NodeId,
        right: NodeId,
    },
    Or {
        left: NodeId,
        right: NodeId,
    },
    Conditional {
        test: NodeId,
        then: NodeId,
        otherwise: NodeId,
    },
    Assign {
        operator: Option<BinaryOperator>,
        target: NodeId,
        value: NodeId,
    },
    Comma {
        left: NodeId,
        right: NodeId,
    },
    Block(Listed<NodeId>),
    Var(Listed<Declarator>),
    Empty,
    Expression(NodeId),
    If {
        test: NodeId,
        then: NodeId,
        otherwise: Option<NodeId>,
    },
    DoWhile {
        body: NodeId,
        test: NodeId,
    },
    While {
        test: NodeId,
        body: NodeId,
    },
    For {
        start: Option<NodeId>,
        test: Option<NodeId>,
        update: Option<NodeId>,
        body: NodeId,
    },
    /// The target is a name, or a `var` of one name without a value.
    ForIn {
        target: NodeId,
        object: NodeId,
        body: NodeId,
    },
    Continue(Option<JText>),
    Break(Option<JText>),
    Return(Option<NodeId>),
    Labelled {
        label: JText,
        body: NodeId,
    },
    Switch {
        value: NodeId,
        cases: Listed<Case>,
    },
    Throw(NodeId),
    Try(Box<Guarded>),
    Declaration {
        head: Box<DeclarationHead>,
        body: BodyId,
    },
    /// The scope is what the program declares.
    Program {
        statements: Listed<NodeId>,
        scope: Box<Scope>,
    },
    /// The scope is that of a call.
    Handler {
        statements: Listed<NodeId>,
        scope: Box<Scope>,
    },
    /// The scope is that of a call.
    Body {
        statements: Listed<NodeId>,
        scope: Box<Scope>,
    },
}

impl Node {
    ghost use Rattle.std.specs.Option.{option_copied};
    ghost use Rattle.js_tree.specs.Arena.{is_handler, scope_of};

    // The scope that a program or a body carries.
    pub(crate) fn scope(&self) -> Option<&Scope>
        ensures { option_copied result ≡ scope_of self.now }
    {
        match self {
            Node::Program { scope, .. } => Some(scope),
            Node::Handler { scope, .. } => Some(scope),
            Node::Body { scope, .. } => Some(scope),
            _ => None,
        }
    }

    pub(crate) fn is_handler(&self) -> bool
        ensures { result ≡ is_handler self.now }
    {
        matches!(self, Node::Handler { .. })
    }
}
