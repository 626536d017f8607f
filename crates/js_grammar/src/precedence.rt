// Precedence of the operators between operands, as contracts of functions that do nothing.
ghost use Rattle.js_grammar.specs.Precedence.{OperationIsWritten, OneOperation, ExpressionIsAnywhere, ExpressionComesFirst};

/// What is derived as an operation is what is written with operators of its level and above, and the other way round
/// (ECMA-262 edition 5.1, 11.5 to 11.11).
pub fn an_operation_is_written()
    ensures { OperationIsWritten }
{}

/// By the words of an operation one operation is written.
pub fn an_operation_is_one()
    ensures { OneOperation }
{}

/// An expression is the same wherever it stands.
pub fn an_expression_is_anywhere()
    ensures { ExpressionIsAnywhere }
{}

/// From an expression and what is to be read behind it nothing is derived but the expression, and then the rest.
pub fn an_expression_comes_first()
    ensures { ExpressionComesFirst }
{}
