// The operators between two operands, and what each does with them.
ghost use Rattle.std.specs.Prelude.{◌≡◌};
ghost use Rattle.js_operations.specs.Operations as operations;

use js_ops::{Arith, Bits};
use js_tree::BinaryOperator;

/// `<`, `>`, `<=` and `>=` (ECMA-262 edition 5.1, 11.8.1 to 11.8.4).
#[derive(Clone, Copy, Debug, PartialEq, Eq)]
pub enum Relation {
    Less,
    Greater,
    LessEqual,
    GreaterEqual,
}

/// What an operator between two operands does (11.5 to 11.10).
#[derive(Clone, Copy, Debug, PartialEq, Eq)]
pub enum Operation {
    /// `+`
    Sum,
    Arithmetic(Arith),
    Bitwise(Bits),
    Relates(Relation),
    /// `==`, or its contrary.
    Equals(bool),
    /// `===`, or its contrary.
    Is(bool),
    InstanceOf,
    /// `in`
    HasProperty,
}

impl Operation {
    /// What the operator does.
    pub fn of(operator: BinaryOperator) -> Operation
        ensures { result ≡ operations.operation operator }
    {
        match operator {
            BinaryOperator::Multiply => Operation::Arithmetic(Arith::Mul),
            BinaryOperator::Divide => Operation::Arithmetic(Arith::Div),
            BinaryOperator::Remainder => Operation::Arithmetic(Arith::Rem),
            BinaryOperator::Add => Operation::Sum,
            BinaryOperator::Subtract => Operation::Arithmetic(Arith::Sub),
            BinaryOperator::ShiftLeft => Operation::Bitwise(Bits::Left),
            BinaryOperator::ShiftRight => Operation::Bitwise(Bits::Right),
            BinaryOperator::ShiftZero => Operation::Bitwise(Bits::Zero),
            BinaryOperator::Less => Operation::Relates(Relation::Less),
            BinaryOperator::Greater => Operation::Relates(Relation::Greater),
            BinaryOperator::LessEqual => Operation::Relates(Relation::LessEqual),
            BinaryOperator::GreaterEqual => Operation::Relates(Relation::GreaterEqual),
            BinaryOperator::InstanceOf => Operation::InstanceOf,
            BinaryOperator::In => Operation::HasProperty,
            BinaryOperator::Equal => Operation::Equals(true),
            BinaryOperator::NotEqual => Operation::Equals(false),
            BinaryOperator::Identical => Operation::Is(true),
            BinaryOperator::NotIdentical => Operation::Is(false),
            BinaryOperator::BitAnd => Operation::Bitwise(Bits::Both),
            BinaryOperator::BitXor => Operation::Bitwise(Bits::Unlike),
            BinaryOperator::BitOr => Operation::Bitwise(Bits::Either),
        }
    }
}
