// Symbols: what is still to be read.
use js_tokens::Word;
use js_tree::{Production, UnaryOperator, UpdateOperator};
use mug_text::JText;

/// Whether `in` is an operator (ECMA-262 edition 5.1, the productions with NoIn in 11.8 to 12.6).
#[derive(Clone, Copy, Debug, PartialEq, Eq)]
pub enum Form {
    Full,
    NoIn,
}

/// The parts of a program. A place is the first unit of a part that is in the making.
#[derive(Clone, Copy, Debug, PartialEq, Eq)]
pub enum Nonterminal {
    /// An expression, and what goes on with commas (11.14).
    Expression(Form),
    Commas(Form, usize),
    /// 11.13
    Assignment(Form),
    Assigned(Form, usize),
    /// 11.12
    Conditional(Form),
    Choice(Form, usize),
    /// Operands with operators of this level and above between them (11.5 to 11.11).
    Operation(u8, Form),
    Operators(u8, Form, usize),
    /// An operator before an operand, or an operand with one behind it (11.3, 11.4).
    Unary,
    Postfix(usize),
    Updated(UpdateOperator, usize),
    Target,
    Prefixed(UpdateOperator, usize),
    Operand(UnaryOperator, usize),
    /// The same within the operand of `++` or `--`.
    TargetOperand(UnaryOperator, usize),
    Operated(UnaryOperator, usize),
    /// Calls and members, and what goes on behind the callee or object (11.2).
    LeftHand,
    Tail(usize),
    MemberTail(usize),
    Key(usize),
    /// `new`, its callee and its arguments (11.2.2).
    New,
    Callee,
    Constructor,
    Given(usize),
    Arguments,
    FirstArgument,
    MoreArguments,
    /// 11.1
    Primary,
    Elements,
    MoreElements,
    Entries,
    MoreEntries,
    Entry,
    /// Behind `get` and `set` as a key: an accessor, or the key's value.
    Getter,
    Setter,
    Accessed,
    Value,
    /// A function with its name, parameters and body (clause 13).
    Function,
    OwnName,
    Name,
    Parameters,
    MoreParameters,
    Body,
    /// The statements and functions of a program or of a function's body (clause 14).
    Sources,
    Declaration,
    /// The statements of a block (12.1).
    Statements,
    Statement,
    Braced,
    /// 12.2
    Declarations(Form),
    Declarator(Form),
    MoreDeclarators(Form),
    Initialiser(Form),
    /// 12.5
    Else(usize),
    /// 12.6
    ForHead(usize),
    ForVar(usize, usize),
    ForTarget,
    ForObject(usize),
    ForStart(usize),
    ForTest,
    ForUpdate,
    /// 12.7 to 12.9, 12.13
    ContinueTo(usize),
    BreakTo(usize),
    Returned(usize),
    Thrown(usize),
    /// 12.11; whether there was a default already.
    Cases(bool),
    /// 12.14
    Handlers(usize),
    Finally(usize),
}

/// How a tree is made of the trees that were read last.
#[derive(Debug, Drop)]
pub enum Build {
    /// A node of a production, from a place, of so many trees.
    Node(Production, usize, usize),
    /// A node that spans the whole text, of the last tree.
    Root(Production),
    /// A list of so many trees.
    Group(usize),
    /// The last tree is put behind the list before it.
    Add,
    /// A part that isn't there.
    Missing,
    Text(JText),
}

/// A part that is open. All but a function's body count for the nesting.
#[derive(Debug, Drop)]
pub enum Open {
    /// An AssignmentExpression, the operand of a prefix operator, the callee of `new`, or a statement of another kind.
    Part,
    /// A statement that `break` and `continue` lead out of or back to.
    Loop,
    /// One that `break` leads out of.
    Switch,
    Labelled(JText),
    Function,
}

/// What is still to be read.
#[derive(Debug, Drop)]
pub enum Symbol {
    Word(Word),
    /// The text's end.
    End,
    /// A semicolon that may be inserted (7.9).
    Semicolon,
    /// A semicolon that may be inserted without a line terminator too.
    FreeSemicolon,
    /// Nothing can be read here.
    Never,
    Part(Nonterminal),
    Build(Build),
    /// The end of a part.
    Leave(Open),
}

/// What a text is read as.
#[derive(Clone, Copy, Debug, PartialEq, Eq)]
pub enum Start {
    Program,
    /// The body of a function with a parameter.
    Handler,
}
