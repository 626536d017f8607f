// Members whose key is an operand.
ghost use Rattle.std.specs.Prelude.{◌≡◌, [], IfOk, OnOk};
ghost use Rattle.std.specs.Prelude.{Option};
ghost use Rattle.js_host.specs.There.{AreThere};
ghost use Rattle.js_ops.specs.Convert.{to_text};
ghost use Rattle.js_reference.specs.Deletes.{delete};
ghost use Rattle.js_reference.specs.Hosted.{hosted};
ghost use Rattle.js_reference.specs.Later.{IsLater};
ghost use Rattle.js_reference.specs.Properties.{read};
ghost use Rattle.js_operands.specs.Conversions.{keyed};
ghost use Rattle.js_operands.specs.ExprMoves.{operand_names};
ghost use Rattle.js_operands.specs.Keyed.{IsKeyed, IsKeyedSo, keyed_names};
ghost use Rattle.js_operands.specs.Prepared.{HasReached, reached_names};
ghost use Rattle.js_operands.specs.Steps.{operand_at};
ghost use Rattle.js_operands.specs.Shapes.{IsReachedSo};
ghost use Rattle.js_operands.specs.declared.row.Phase.{Phase as PhaseKind};

use crate::ExprMove;
use crate::conversions::prepared;
use crate::moves::type_error;
use crate::reached::Reached;
use crate::references::{delete_base, read_base};
use crate::values::{is_missing, operand};
use crate::wants::Wants;
use js_heap::Heap;
use js_host::Host;
use js_ops::{Hint, to_text};
use js_term::Operands;
use js_value::Value;
use mug_text::{JText, NoMemory};
use std::alloc::Global;

/// A member's key, as a text.
#[derive(Debug, Drop)]
pub(crate) enum Keyed {
    /// It is in conversion, or the node throws.
    Moves(ExprMove),
    Ready(JText),
}

/// The text of the second operand, a member's key; none of an object, which is converted before.
#[tactic(auto, using(crate::proofs::Texts::text_of_object))]
pub fn key_of(alloc: Global, operands: &Operands) -> Result<JText, NoMemory>
    ensures { IfOk result (λ t. t ≡ to_text (operand_at operands.now.done 1)) }
{
    let undefined = Value::Undefined;
    let key = operand(operands, 1, &undefined);
    if !key.is_primitive() {
        return JText::from_units(alloc, &[]);
    }
    to_text(alloc, key)
}

// The key of a member, behind its base.
fn key_text<H: Host>(
    alloc: Global,
    operands: &mut Operands,
    heap: &mut Heap,
    host: &H,
) -> Result<Keyed, NoMemory>
    requires there { AreThere heap.old (operand_names operands.old (H.names.host host.now)) }
    requires coming { operands.old.todo ≡ [] }
    ensures value { IfOk result (λ k. IsKeyed (hosted H.rows) heap.old host.now operands.old k
        operands.new heap.new) }
    ensures there { IfOk result (λ k.
        AreThere heap.new (keyed_names k (operand_names operands.new (H.names.host host.now)))) }
    ensures more { OnOk result (IsLater heap.old heap.new) }
    ensures shape { (n : Option PhaseKind) → IfOk result (λ k.
        IsKeyedSo n operands.old operands.new k) }
{
    let undefined = Value::Undefined;
    if is_missing(operand(operands, 0, &undefined)) {
        return Ok(Keyed::Moves(type_error(alloc, operands, heap, host)?));
    }
    let wants = Wants::At(1, Some(Hint::Text), None);
    if let Some(moved) = prepared(alloc, wants, None, operands, heap, host)? {
        return Ok(Keyed::Moves(moved));
    }
    Ok(Keyed::Ready(key_of(alloc, operands)?))
}

/// Reads a property of the first operand, whose key is the second.
pub fn read_keyed<H: Host>(
    alloc: Global,
    operands: &mut Operands,
    heap: &mut Heap,
    host: &H,
) -> Result<Reached, NoMemory>
    requires there { AreThere heap.old (operand_names operands.old (H.names.host host.now)) }
    requires coming { operands.old.todo ≡ [] }
    ensures value { IfOk result (λ x. let vs = operands.old.done in
        HasReached (λ r made. keyed (hosted H.rows) heap.old host.now r vs made)
        (read (hosted H.rows) heap.old host.now (operand_at vs 0) (to_text (operand_at vs 1)))
        operands.old operands.new heap.new host.now x) }
    ensures there { IfOk result (λ x.
        AreThere heap.new (reached_names x (operand_names operands.new (H.names.host host.now)))) }
    ensures more { OnOk result (IsLater heap.old heap.new) }
    ensures shape { (n : Option PhaseKind) → IfOk result (λ x.
        IsReachedSo n operands.old operands.new x) }
{
    match key_text(alloc, operands, heap, host)? {
        Keyed::Moves(moved) => Ok(Reached::Moves(moved)),
        Keyed::Ready(key) => {
            let answered = read_base(alloc, operands, &key, heap, host)?;
            Ok(Reached::Gives(answered))
        }
    }
}

/// Deletes a property of the first operand, whose key is the second.
pub fn delete_keyed<H: Host>(
    alloc: Global,
    operands: &mut Operands,
    heap: &mut Heap,
    host: &H,
) -> Result<Reached, NoMemory>
    requires there { AreThere heap.old (operand_names operands.old (H.names.host host.now)) }
    requires coming { operands.old.todo ≡ [] }
    ensures value { IfOk result (λ x. let vs = operands.old.done in
        HasReached (λ r made. keyed (hosted H.rows) heap.old host.now r vs made)
        (delete (hosted H.rows) heap.old host.now (operand_at vs 0) (to_text (operand_at vs 1)))
        operands.old operands.new heap.new host.now x) }
    ensures there { IfOk result (λ x.
        AreThere heap.new (reached_names x (operand_names operands.new (H.names.host host.now)))) }
    ensures more { OnOk result (IsLater heap.old heap.new) }
    ensures shape { (n : Option PhaseKind) → IfOk result (λ x.
        IsReachedSo n operands.old operands.new x) }
{
    match key_text(alloc, operands, heap, host)? {
        Keyed::Moves(moved) => Ok(Reached::Moves(moved)),
        Keyed::Ready(key) => {
            let answered = delete_base(alloc, operands, &key, heap, host)?;
            Ok(Reached::Gives(answered))
        }
    }
}
