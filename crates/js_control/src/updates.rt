// `++` and `--`: the target is read, its value converted to a number, and the next number written.
ghost use Rattle.std.specs.Prelude.{◌≡◌, ◌<◌, [], Some, None, List, length};
ghost use Rattle.std.specs.Prelude.{Option};
ghost use Rattle.std.specs.Prelude.{IfOk, IfSome, IfNone, OnOk};
ghost use Rattle.std.specs.Option.{option_map};
ghost use Rattle.js_value.specs.Image.{IsPrimitive};
ghost use Rattle.js_value.specs.declared.value.Value.{Value as Held};
ghost use Rattle.js_heap.specs.Chains.{IsBelow};
ghost use Rattle.js_heap.specs.Scopes.{scope_number};
ghost use Rattle.js_heap.specs.World.{World};
ghost use Rattle.js_host.specs.There.{AreThere};
ghost use Rattle.js_operations.specs.NextNumbers as next_numbers;
ghost use Rattle.js_reference.specs.Answers.{answer, answered_names};
ghost use Rattle.js_reference.specs.Hosted.{hosted};
ghost use Rattle.js_reference.specs.Later.{IsLater};
ghost use Rattle.js_tree.specs.Arena.{Arena};
ghost use Rattle.js_tree.specs.declared.production.UpdateOperator.{UpdateOperator as UpdateKind};
ghost use Rattle.js_operands.specs.ExprMoves.{made_of, move_names, operand_names};
ghost use Rattle.js_operands.specs.Rows.{ExprRow as Row};
ghost use Rattle.js_control.specs.Stored.{AreNext, IsCounted, IsCountedSo, counted_names};
ghost use Rattle.js_control.specs.Updates as rows;
ghost use Rattle.js_operands.specs.declared.row.Side.{Side as SideKind};
ghost use Rattle.js_operands.specs.Shapes.{IsShaped};
ghost use Rattle.js_operands.specs.declared.row.Phase.{Phase as PhaseKind};

use js_heap::Heap;
use js_host::Host;
use js_operands::{
    ExprMove, Phase, Reached, Side, Wants, given, key_of, operand, prepared, read_base, read_keyed,
    read_target, read_variable, write_base, write_variable,
};
use js_operations::next_number;
use js_ops::{Hint, to_number};
use js_reference::{Answered, ErrorName, thrown};
use js_term::{Context, Operands};
use js_tree::UpdateOperator;
use js_value::{Num, Value};
use mug_text::{JText, NoMemory};
use std::alloc::Global;

/// `x++` and the like: the step that reads (ECMA-262 edition 5.1, 11.3, 11.4.4, 11.4.5).
pub(crate) fn update_name<H: Host>(
    alloc: Global,
    name: &JText,
    at: &Context,
    operands: &mut Operands,
    heap: &mut Heap,
    host: &H,
) -> Result<ExprMove, NoMemory>
    requires there { AreThere heap.old (operand_names operands.old (H.names.host host.now)) }
    requires coming { operands.old.todo ≡ [] }
    requires scope { IsBelow (length heap.old.scopes) (option_map scope_number at.now.scope) }
    ensures value { (a : Arena) (u : UpdateKind) (s : SideKind) → IfOk result (λ m.
        rows.update_name_row (hosted H.rows) at.now heap.old host.now u s name.now
        operands.old.done
        ≡ made_of a (Row.UpdateName u s name.now) operands.new m heap.new host.now) }
    ensures there { IfOk result (λ m.
        AreThere heap.new (move_names m (operand_names operands.new (H.names.host host.now)))) }
    ensures more { OnOk result (IsLater heap.old heap.new) }
    ensures shape { IfOk result (λ m. IsShaped (Some Phase.Store) operands.old operands.new m) }
{
    let answered = read_variable(alloc, operands, at.scope, name, heap, host)?;
    read_target::<H>(operands, answered, Phase::Store)
}

/// `e.k++` and the like: the step that reads.
pub(crate) fn update_member<H: Host>(
    alloc: Global,
    key: &JText,
    operands: &mut Operands,
    heap: &mut Heap,
    host: &H,
) -> Result<ExprMove, NoMemory>
    requires there { AreThere heap.old (operand_names operands.old (H.names.host host.now)) }
    requires coming { operands.old.todo ≡ [] }
    ensures value { (a : Arena) (u : UpdateKind) (s : SideKind) → IfOk result (λ m.
        rows.update_member_row (hosted H.rows) heap.old host.now u s key.now operands.old.done
        ≡ made_of a (Row.UpdateMember u s key.now) operands.new m heap.new host.now) }
    ensures there { IfOk result (λ m.
        AreThere heap.new (move_names m (operand_names operands.new (H.names.host host.now)))) }
    ensures more { OnOk result (IsLater heap.old heap.new) }
    ensures shape { IfOk result (λ m. IsShaped (Some Phase.Store) operands.old operands.new m) }
{
    let answered = read_base(alloc, operands, key, heap, host)?;
    read_target::<H>(operands, answered, Phase::Store)
}

/// `e[k]++` and the like: the step that reads.
pub(crate) fn update_index<H: Host>(
    alloc: Global,
    operands: &mut Operands,
    heap: &mut Heap,
    host: &H,
) -> Result<ExprMove, NoMemory>
    requires there { AreThere heap.old (operand_names operands.old (H.names.host host.now)) }
    requires coming { operands.old.todo ≡ [] }
    ensures value { (a : Arena) (u : UpdateKind) (s : SideKind) → IfOk result (λ m.
        rows.update_index_row (hosted H.rows) heap.old host.now u s operands.old.done
        ≡ made_of a (Row.UpdateIndex u s) operands.new m heap.new host.now) }
    ensures there { IfOk result (λ m.
        AreThere heap.new (move_names m (operand_names operands.new (H.names.host host.now)))) }
    ensures more { OnOk result (IsLater heap.old heap.new) }
    ensures shape { IfOk result (λ m. IsShaped (Some Phase.Store) operands.old operands.new m) }
{
    match read_keyed(alloc, operands, heap, host)? {
        Reached::Moves(moved) => Ok(moved),
        Reached::Gives(answered) => read_target::<H>(operands, answered, Phase::Store),
    }
}

/// The number of a target and the next one.
#[derive(Clone, Copy, Debug)]
pub(crate) struct NextNumber {
    pub old: Num,
    pub next: Num,
}

/// What code has behind the conversion of a target's value.
#[derive(Debug, Drop)]
pub(crate) enum Counted {
    /// It is in conversion, or the node throws.
    Moves(ExprMove),
    Ready(NextNumber),
}

// The number and the next one, where that is in the profile.
fn next_of(operator: UpdateOperator, old: &Num) -> Option<NextNumber>
    ensures none { IfNone result (next_numbers.next_number operator old.now ≡ None) }
    ensures some { IfSome result (λ n. (n.old ≡ old.now)
        × (next_numbers.next_number operator old.now ≡ Some (Value.Num n.next))) }
{
    let next = next_number(operator, *old)?;
    Some(NextNumber { old: *old, next })
}

// The number of a value and the next one, where both are in the profile.
fn numbers(operator: UpdateOperator, value: &Value) -> Option<NextNumber>
    requires { IsPrimitive value.now }
    ensures { AreNext operator value.now result }
{
    match to_number(value) {
        Ok(old) => next_of(operator, &old),
        Err(_) => None,
    }
}

// The number of the operand at a place and the next one, behind the operand's conversion.
fn target_numbers<H: Host>(
    alloc: Global,
    operator: UpdateOperator,
    place: usize,
    operands: &mut Operands,
    heap: &mut Heap,
    host: &H,
) -> Result<Counted, NoMemory>
    requires there { AreThere heap.old (operand_names operands.old (H.names.host host.now)) }
    requires coming { operands.old.todo ≡ [] }
    requires place { place < 4 }
    ensures value { IfOk result (λ c. IsCounted (hosted H.rows) heap.old host.now place operator
        operands.old c operands.new heap.new) }
    ensures there { IfOk result (λ c.
        AreThere heap.new (counted_names c (operand_names operands.new (H.names.host host.now)))) }
    ensures more { OnOk result (IsLater heap.old heap.new) }
    ensures shape { (n : Option PhaseKind) → IfOk result (λ c.
        IsCountedSo n operands.old operands.new c) }
{
    let wants = Wants::At(place, Some(Hint::Number), None);
    if let Some(moved) = prepared(alloc, wants, None, operands, heap, host)? {
        return Ok(Counted::Moves(moved));
    }
    let undefined = Value::Undefined;
    match numbers(operator, operand(operands, place, &undefined)) {
        Some(numbers) => Ok(Counted::Ready(numbers)),
        None => {
            let answered = thrown(alloc, host, heap, ErrorName::RangeError)?;
            Ok(Counted::Moves(given::<H>(answered)))
        }
    }
}

// What the expression gives, of the old number and of what the write gave.
fn update_answer<H: Host>(side: Side, old: Num, answered: Answered) -> Answered
    ensures value { (w : World) (h : H) → answer result w h
        ≡ rows.update_gives side old (answer answered w h) }
    ensures there { (w : World) (vs : List Held) → AreThere w (answered_names answered vs)
        → AreThere w (answered_names result vs) }
{
    match answered {
        Answered::Returns(value) => match side {
            Side::Before => Answered::Returns(value),
            Side::Behind => Answered::Returns(Value::Num(old)),
        },
        Answered::Throws(error) => Answered::Throws(error),
    }
}

/// The step that writes to a name.
pub(crate) fn store_name<H: Host>(
    alloc: Global,
    operator: UpdateOperator,
    side: Side,
    name: &JText,
    at: &Context,
    operands: &mut Operands,
    heap: &mut Heap,
    host: &mut H,
) -> Result<ExprMove, NoMemory>
    requires there { AreThere heap.old (operand_names operands.old (H.names.host host.old)) }
    requires coming { operands.old.todo ≡ [] }
    requires scope { IsBelow (length heap.old.scopes) (option_map scope_number at.now.scope) }
    ensures value { (a : Arena) → IfOk result (λ m.
        rows.store_name_row (hosted H.rows) at.now heap.old host.old operator side name.now
        operands.old.done
        ≡ made_of a (Row.StoreName operator side name.now) operands.new m heap.new host.new) }
    ensures there { IfOk result (λ m.
        AreThere heap.new (move_names m (operand_names operands.new (H.names.host host.new)))) }
    ensures more { OnOk result (IsLater heap.old heap.new) }
    ensures shape { (n : Option PhaseKind) → IfOk result (λ m.
        IsShaped n operands.old operands.new m) }
{
    match target_numbers(alloc, operator, 0, operands, heap, host)? {
        Counted::Moves(moved) => Ok(moved),
        Counted::Ready(NextNumber { old, next }) => {
            let next = Value::Num(next);
            let answered = write_variable(alloc, operands, at.scope, name, next, heap, host)?;
            Ok(given::<H>(update_answer::<H>(side, old, answered)))
        }
    }
}

/// The step that writes to a member.
pub(crate) fn store_member<H: Host>(
    alloc: Global,
    operator: UpdateOperator,
    side: Side,
    key: &JText,
    operands: &mut Operands,
    heap: &mut Heap,
    host: &mut H,
) -> Result<ExprMove, NoMemory>
    requires there { AreThere heap.old (operand_names operands.old (H.names.host host.old)) }
    requires coming { operands.old.todo ≡ [] }
    ensures value { (a : Arena) → IfOk result (λ m.
        rows.store_member_row (hosted H.rows) heap.old host.old operator side key.now
        operands.old.done
        ≡ made_of a (Row.StoreMember operator side key.now) operands.new m heap.new host.new) }
    ensures there { IfOk result (λ m.
        AreThere heap.new (move_names m (operand_names operands.new (H.names.host host.new)))) }
    ensures more { OnOk result (IsLater heap.old heap.new) }
    ensures shape { (n : Option PhaseKind) → IfOk result (λ m.
        IsShaped n operands.old operands.new m) }
{
    match target_numbers(alloc, operator, 1, operands, heap, host)? {
        Counted::Moves(moved) => Ok(moved),
        Counted::Ready(NextNumber { old, next }) => {
            let answered = write_base(alloc, operands, key, Value::Num(next), heap, host)?;
            Ok(given::<H>(update_answer::<H>(side, old, answered)))
        }
    }
}

/// The step that writes to a member whose key is an operand.
pub(crate) fn store_index<H: Host>(
    alloc: Global,
    operator: UpdateOperator,
    side: Side,
    operands: &mut Operands,
    heap: &mut Heap,
    host: &mut H,
) -> Result<ExprMove, NoMemory>
    requires there { AreThere heap.old (operand_names operands.old (H.names.host host.old)) }
    requires coming { operands.old.todo ≡ [] }
    ensures value { (a : Arena) → IfOk result (λ m.
        rows.store_index_row (hosted H.rows) heap.old host.old operator side operands.old.done
        ≡ made_of a (Row.StoreIndex operator side) operands.new m heap.new host.new) }
    ensures there { IfOk result (λ m.
        AreThere heap.new (move_names m (operand_names operands.new (H.names.host host.new)))) }
    ensures more { OnOk result (IsLater heap.old heap.new) }
    ensures shape { (n : Option PhaseKind) → IfOk result (λ m.
        IsShaped n operands.old operands.new m) }
{
    match target_numbers(alloc, operator, 2, operands, heap, host)? {
        Counted::Moves(moved) => Ok(moved),
        Counted::Ready(NextNumber { old, next }) => {
            let key = key_of(alloc, operands)?;
            let answered = write_base(alloc, operands, &key, Value::Num(next), heap, host)?;
            Ok(given::<H>(update_answer::<H>(side, old, answered)))
        }
    }
}
