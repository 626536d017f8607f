// By which hints operands are converted.
ghost use Rattle.std.specs.Prelude.{◌≡◌, ℕ};
ghost use Rattle.js_ops.specs.Rows as rows;
ghost use Rattle.js_operations.specs.Operations as operations;
ghost use Rattle.js_operations.specs.Unary as unary_operators;

use crate::Operation;
use js_ops::{Equality, Hint, Side, equal};
use js_tree::UnaryOperator;
use js_value::Value;

/// By which hint each of two operands is converted, where it is an object.
#[derive(Clone, Copy, Debug, PartialEq, Eq)]
pub struct OperandHints {
    pub left: Option<Hint>,
    pub right: Option<Hint>,
}

// The operand that `==` converts.
fn equality_wants(left: &Value, right: &Value) -> OperandHints
    ensures left { result.left ≡
        operations.equality_wants (rows.equal left.now right.now) 0 }
    ensures right { result.right ≡
        operations.equality_wants (rows.equal left.now right.now) 1 }
{
    match equal(left, right) {
        Ok(Equality::Converts(Side::Left, hint)) => OperandHints {
            left: Some(hint),
            right: None,
        },
        Ok(Equality::Converts(Side::Right, hint)) => OperandHints {
            left: None,
            right: Some(hint),
        },
        _ => OperandHints {
            left: None,
            right: None,
        },
    }
}

/// By which hints an operation converts its operands, the left one first (ECMA-262 edition 5.1,
/// 11.5 to 11.10).
pub fn operation_wants(operation: Operation, left: &Value, right: &Value) -> OperandHints
    ensures left { result.left ≡ operations.operation_wants operation left.now right.now 0 }
    ensures right { result.right ≡ operations.operation_wants operation left.now right.now 1 }
{
    let (left_hint, right_hint) = match operation {
        Operation::Sum => (Some(Hint::Default), Some(Hint::Default)),
        Operation::Arithmetic(_) | Operation::Bitwise(_) | Operation::Relates(_) => {
            (Some(Hint::Number), Some(Hint::Number))
        }
        Operation::Equals(_) => return equality_wants(left, right),
        Operation::Is(_) | Operation::InstanceOf => (None, None),
        Operation::HasProperty => (Some(Hint::Text), None),
    };
    OperandHints {
        left: left_hint,
        right: right_hint,
    }
}

/// By which hint an operator converts its one operand (11.4).
pub fn unary_wants(operator: UnaryOperator) -> Option<Hint>
    ensures { (i : ℕ) → result ≡ unary_operators.unary_wants operator i }
{
    match operator {
        UnaryOperator::Plus | UnaryOperator::Minus | UnaryOperator::BitNot => Some(Hint::Number),
        _ => None,
    }
}
