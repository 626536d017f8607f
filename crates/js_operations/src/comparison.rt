// What holds between two values.
ghost use Rattle.std.specs.Prelude.{◌≡◌, IfSome};
ghost use Rattle.std.specs.Option.{option_and_then, option_map};
ghost use Rattle.js_value.specs.Image.{IsPrimitive};
ghost use Rattle.js_ops.specs.Rows as rows;
ghost use Rattle.js_operations.specs.Operations as operations;

use crate::Relation;
use js_ops::{Equality, equal, less};
use js_value::Value;

// Whether the answer is yes; of a comparison in which NaN takes part nothing holds.
fn holds(answer: Option<bool>) -> bool
    ensures { result ≡ operations.holds answer }
{
    answer == Some(true)
}

// Whether the answer is no.
fn fails(answer: Option<bool>) -> bool
    ensures { result ≡ operations.fails answer }
{
    answer == Some(false)
}

// Whether the relation holds (ECMA-262 edition 5.1, 11.8.1 to 11.8.4); none where an operand's
// number is outside the profile.
fn relation(relation: Relation, left: &Value, right: &Value) -> Option<bool>
    requires left { IsPrimitive left.now }
    requires right { IsPrimitive right.now }
    ensures { result ≡ operations.relation relation left.now right.now }
{
    match relation {
        Relation::Less => less(left, right).ok().map(holds),
        Relation::Greater => less(right, left).ok().map(holds),
        Relation::LessEqual => less(right, left).ok().map(fails),
        Relation::GreaterEqual => less(left, right).ok().map(fails),
    }
}

// The same as a value.
pub(crate) fn compare(operator: Relation, left: &Value, right: &Value) -> Option<Value>
    requires left { IsPrimitive left.now }
    requires right { IsPrimitive right.now }
    ensures value { result ≡
        option_map Value.Bool (operations.relation operator left.now right.now) }
    ensures primitive { IfSome result (λ v. IsPrimitive v) }
{
    match relation(operator, left, right) {
        Some(answer) => Some(Value::Bool(answer)),
        None => None,
    }
}

// The answer of `==`, or its contrary (11.9.1, 11.9.2); none where the number of a text is asked
// and outside the profile.
pub(crate) fn equality(holds: bool, left: &Value, right: &Value) -> Option<Value>
    ensures value { result ≡ option_map (λ x. Value.Bool (operations.agrees holds x))
        (option_and_then operations.answer_of (rows.equal left.now right.now)) }
    ensures primitive { IfSome result (λ v. IsPrimitive v) }
{
    match equal(left, right) {
        Ok(Equality::Is(answer)) => Some(Value::Bool(answer == holds)),
        _ => None,
    }
}
