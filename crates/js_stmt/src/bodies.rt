// Bodies of functions.
ghost use Rattle.std.specs.Prelude.{◌≡◌, IfOk, Some};
ghost use Rattle.std.specs.Option.{option_copied};
ghost use Rattle.js_stmt.specs.Bodies as bodies;
ghost use Rattle.js_stmt.specs.CodeRows.{ended_as};

use crate::StmtMove;
use js_term::Completion;
use js_value::Value;
use mug_text::NoMemory;

// What the call gives, of what the body returns.
fn result_of(made: Option<&Value>, value: Value) -> Result<Value, NoMemory>
    ensures { IfOk result (λ v. v ≡ bodies.result_of (option_copied made.entry) value) }
{
    match made {
        Some(made) if value.is_primitive() => made.copy(),
        _ => Ok(value),
    }
}

/// The statements of a body are finished (ECMA-262 edition 5.1, 13.2.1).
pub(crate) fn body_finished(made: Option<&Value>) -> Result<StmtMove, NoMemory>
    ensures { IfOk result (λ m. ended_as m ≡ Some (bodies.body_row (option_copied made.entry))) }
{
    Ok(StmtMove::Value(result_of(made, Value::Undefined)?))
}

/// A body has come to a completion.
pub(crate) fn body_met(made: Option<&Value>, completion: Completion) -> Result<StmtMove, NoMemory>
    ensures { IfOk result (λ m.
        ended_as m ≡ Some (bodies.body_meets (option_copied made.entry) completion)) }
{
    match completion {
        Completion::Return(value) => Ok(StmtMove::Value(result_of(made, value)?)),
        other => Ok(StmtMove::Abrupt(other)),
    }
}
