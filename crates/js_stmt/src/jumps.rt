// Jumps and labels.
ghost use Rattle.std.specs.Prelude.{◌≡◌, ◌<◌, IfOk, Some, if◌then◌else◌, length, slice_get};
ghost use Rattle.std.specs.Option.{option_copied};
ghost use Rattle.js_stmt.specs.CodeRows.{ended_as, labels_around};
ghost use Rattle.js_stmt.specs.Jumps as jumps;
ghost use Rattle.js_stmt.specs.Made.{Progress};
ghost use Rattle.js_stmt.specs.Steps.{takes as takes_label};

use crate::labelling::takes;
use crate::{Labelling, StmtMove};
use js_term::{Completion, Operands};
use js_tree::Script;
use js_value::Value;
use mug_text::{JText, NoMemory};

// An equal label, where there is one.
fn copied(label: &Option<JText>) -> Result<Option<JText>, NoMemory>
    ensures { IfOk result (λ l. l ≡ label.now) }
{
    match label {
        Some(text) => Ok(Some(text.copy()?)),
        None => Ok(None),
    }
}

/// `continue` (ECMA-262 edition 5.1, 12.7).
pub(crate) fn continuing(label: &Option<JText>) -> Result<StmtMove, NoMemory>
    ensures { IfOk result (λ m.
        ended_as m ≡ Some (Progress.Completes (Completion.Continue label.now))) }
{
    Ok(StmtMove::Abrupt(Completion::Continue(copied(label)?)))
}

/// `break` (12.8).
pub(crate) fn breaking(label: &Option<JText>) -> Result<StmtMove, NoMemory>
    ensures { IfOk result (λ m.
        ended_as m ≡ Some (Progress.Completes (Completion.Break label.now))) }
{
    Ok(StmtMove::Abrupt(Completion::Break(copied(label)?)))
}

/// `return` (12.9).
pub(crate) fn returning(operands: &Operands) -> Result<StmtMove, NoMemory>
    ensures { IfOk result (λ m.
        ended_as m ≡ Some (jumps.return_row (slice_get operands.now.done 0))) }
{
    match operands.value(0) {
        Some(value) => Ok(StmtMove::Abrupt(Completion::Return(value.copy()?))),
        None => Ok(StmtMove::Abrupt(Completion::Return(Value::Undefined))),
    }
}

/// `throw` (12.13).
pub(crate) fn throwing(operands: &Operands) -> Result<StmtMove, NoMemory>
    ensures { IfOk result (λ m.
        ended_as m ≡ Some (jumps.throw_row (slice_get operands.now.done 0))) }
{
    match operands.value(0) {
        Some(value) => Ok(StmtMove::Abrupt(Completion::Throw(value.copy()?))),
        None => Ok(StmtMove::Finished),
    }
}

/// A loop or a switch is ended by a `break`, or the `break` goes on outwards (12.8).
pub(crate) fn broken(script: &Script, labelling: Labelling, label: Option<JText>) -> StmtMove
    requires { labelling.outermost.number < length script.now.kept }
    ensures { ended_as result ≡ Some (if takes_label (labels_around script.now labelling) label
        then Progress.Finishes else Progress.Completes (Completion.Break label)) }
{
    if takes(script, labelling, &label) {
        StmtMove::Finished
    } else {
        StmtMove::Abrupt(Completion::Break(label))
    }
}

// Whether the completion is a `break` of this label.
fn is_break_of(completion: &Completion, label: &JText) -> bool
    ensures { result ≡ jumps.is_break_of completion.now label.now }
{
    match completion {
        Completion::Break(Some(found)) => found == label,
        _ => false,
    }
}

/// A labelled statement has come to a completion (12.12).
pub(crate) fn labelled_met(label: &JText, completion: Completion) -> StmtMove
    ensures { ended_as result ≡ Some (jumps.labelled_meets label.now completion) }
{
    if is_break_of(&completion, label) {
        StmtMove::Finished
    } else {
        StmtMove::Abrupt(completion)
    }
}
