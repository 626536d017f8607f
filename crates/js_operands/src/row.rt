// The rows of expressions as code has them.
use js_ops::Hint;
use js_tree::{BinaryOperator, Entry, NodeId, UnaryOperator, UpdateOperator};
use mug_text::JText;

/// A method that gives an object's primitive value (ECMA-262 edition 5.1, 8.12.8).
#[derive(Clone, Copy, Debug, PartialEq, Eq)]
pub enum Method {
    ValueOf,
    ToText,
}

/// Where `++` or `--` stands, and so what it gives: before its target the new number, behind it
/// the old one (11.3, 11.4.4, 11.4.5).
#[derive(Clone, Copy, Debug, PartialEq, Eq)]
pub enum Side {
    Before,
    Behind,
}

/// How far a node has come.
#[derive(Clone, Copy, Debug, PartialEq, Eq)]
pub enum Phase {
    /// It has made no step.
    Begun,
    /// The callee of a call is read, and its `this` is known.
    CallOn,
    /// The target of `op=` is read.
    Compute,
    /// The operator of `op=` has given what is to be written.
    Assign,
    /// The target of `++` or `--` is read.
    Store,
    /// An object is to become a primitive value.
    Convert(Hint),
    /// A method of that object is called, and this one is left.
    Converting(Option<Method>),
}

/// A row of the table of expressions: a node in one of its phases, with what its text says, lent
/// from the script.
#[derive(Clone, Copy, Debug)]
pub enum ExprRow<'a> {
    This,
    Name(&'a JText),
    Array(&'a [Option<NodeId>]),
    Object(&'a [Entry]),
    Function,
    Member(&'a JText),
    Index,
    Call,
    CallOn,
    CallMember(&'a JText, &'a [NodeId]),
    CallIndex(&'a [NodeId]),
    New,
    AssignName(&'a JText),
    AssignMember(&'a JText),
    AssignIndex,
    ReviseName(BinaryOperator, &'a JText, NodeId),
    ReviseMember(BinaryOperator, &'a JText, NodeId),
    ReviseIndex(BinaryOperator, NodeId),
    ComputeName(BinaryOperator, &'a JText),
    ComputeMember(BinaryOperator, &'a JText),
    ComputeIndex(BinaryOperator),
    UpdateName(UpdateOperator, Side, &'a JText),
    UpdateMember(UpdateOperator, Side, &'a JText),
    UpdateIndex(UpdateOperator, Side),
    StoreName(UpdateOperator, Side, &'a JText),
    StoreMember(UpdateOperator, Side, &'a JText),
    StoreIndex(UpdateOperator, Side),
    TypeOfName(&'a JText),
    DeleteMember(&'a JText),
    DeleteIndex,
    Unary(UnaryOperator),
    Binary(BinaryOperator),
    And(NodeId),
    Or(NodeId),
    Conditional(NodeId, NodeId),
    Comma(NodeId),
    Convert(Hint),
    Converting(Option<Method>),
}
