// Productions: what a node of a tree is, without its parts.

/// Operators between two operands that are both evaluated (ECMA-262 edition 5.1, 11.5 to 11.10).
#[derive(Clone, Copy, Debug, PartialEq, Eq)]
pub enum BinaryOperator {
    /// `*`
    Multiply,
    /// `/`
    Divide,
    /// `%`
    Remainder,
    /// `+`
    Add,
    /// `-`
    Subtract,
    /// `<<`
    ShiftLeft,
    /// `>>`
    ShiftRight,
    /// `>>>`
    ShiftZero,
    /// `<`
    Less,
    /// `>`
    Greater,
    /// `<=`
    LessEqual,
    /// `>=`
    GreaterEqual,
    InstanceOf,
    In,
    /// `==`
    Equal,
    /// `!=`
    NotEqual,
    /// `===`
    Identical,
    /// `!==`
    NotIdentical,
    /// `&`
    BitAnd,
    /// `^`
    BitXor,
    /// `|`
    BitOr,
}

/// Operators before an operand that change nothing but by `delete` (11.4).
#[derive(Clone, Copy, Debug, PartialEq, Eq)]
pub enum UnaryOperator {
    Delete,
    Void,
    TypeOf,
    /// `+`
    Plus,
    /// `-`
    Minus,
    /// `~`
    BitNot,
    /// `!`
    Not,
}

/// `++` and `--` (11.3, 11.4).
#[derive(Clone, Copy, Debug, PartialEq, Eq)]
pub enum UpdateOperator {
    Increment,
    Decrement,
}

/// What a node is (clauses 11 to 14).
#[derive(Clone, Copy, Debug, PartialEq, Eq)]
pub enum Production {
    This,
    Name,
    Null,
    Bool(bool),
    /// Below `SAFE_END` of `mug_text`.
    Number(i64),
    Text,
    Array,
    Object,
    Function,
    /// `e.k`
    Member,
    /// `e[k]`
    Index,
    Call,
    New,
    Postfix(UpdateOperator),
    Prefix(UpdateOperator),
    Unary(UnaryOperator),
    Binary(BinaryOperator),
    /// `&&`
    And,
    /// `||`
    Or,
    /// `?:`
    Conditional,
    /// `=`, or with an operator `+=` and its like.
    Assign(Option<BinaryOperator>),
    Comma,
    Block,
    Var,
    Empty,
    Expression,
    If,
    DoWhile,
    While,
    For,
    ForIn,
    Continue,
    Break,
    Return,
    Labelled,
    Switch,
    Throw,
    Try,
    /// A function declaration.
    Declaration,
    Program,
    /// The text of a handler, which is a function's body.
    Handler,
    /// A function's body with its braces.
    Body,
}
