// How an object becomes a primitive value (ECMA-262 edition 5.1, 8.12.8).
ghost use Rattle.std.specs.Prelude.{◌≡◌, ◌<◌, ◌∷◌, [], suc, List, IfOk, OnOk, MatchOption};
ghost use Rattle.std.specs.Prelude.{Option, IfSome};
ghost use Rattle.std.specs.Prelude.{drop, length, take};
ghost use Rattle.js_value.specs.declared.value.Value.{Value as Held};
ghost use Rattle.js_host.specs.Natives as natives;
ghost use Rattle.js_host.specs.There.{AreThere};
ghost use Rattle.js_reference.specs.Hosted.{hosted};
ghost use Rattle.js_reference.specs.Later.{IsLater};
ghost use Rattle.js_tree.specs.Arena.{Arena};
ghost use Rattle.js_operands.specs.Conversions as spec;
ghost use Rattle.js_operands.specs.ExprMoves.{conversion_as, conversion_names, left_methods};
ghost use Rattle.js_operands.specs.ExprMoves.{move_names, operand_names, row_behind, values_coming};
ghost use Rattle.js_operands.specs.ExprMoves.{made_of};
ghost use Rattle.js_operands.specs.Prepared.{IsPrepared};
ghost use Rattle.js_operands.specs.Rows.{ExprRow as Row};
ghost use Rattle.js_operands.specs.Steps.{operand_at};
ghost use Rattle.js_operands.specs.Shapes.{IsNext, IsShaped};
ghost use Rattle.js_operands.specs.declared.row.Phase.{Phase as PhaseKind};
ghost use Rattle.js_term.specs.Evaluation.{Evaluation, again};

use crate::values::operand;
use crate::wants::{Wanted, Wants, first_wanted};
use crate::{Conversion, ExprMove, Method, Phase};
use js_heap::Heap;
use js_host::Host;
use js_ops::Hint;
use js_reference::{ErrorName, is_callable, is_date, new_error, property};
use js_term::Operands;
use js_value::Value;
use mug_text::{JText, NoMemory};
use std::alloc::Global;

// `valueOf` and `toString`
const VALUE_OF: [u16; 7] = [0x76, 0x61, 0x6C, 0x75, 0x65, 0x4F, 0x66];

const TO_STRING: [u16; 8] = [0x74, 0x6F, 0x53, 0x74, 0x72, 0x69, 0x6E, 0x67];

fn method_name(alloc: Global, method: Method) -> Result<JText, NoMemory>
    ensures { IfOk result (λ t. t ≡ spec.method_name method) }
{
    match method {
        Method::ValueOf => JText::from_units(alloc, &VALUE_OF),
        Method::ToText => JText::from_units(alloc, &TO_STRING),
    }
}

// The methods by the hint, first and second.
fn methods(hint: Hint, of_date: bool) -> (Method, Method)
    ensures { spec.methods hint of_date ≡ result.0 ∷ result.1 ∷ [] }
{
    match hint {
        Hint::Default if of_date => (Method::ToText, Method::ValueOf),
        Hint::Text => (Method::ToText, Method::ValueOf),
        Hint::Default | Hint::Number => (Method::ValueOf, Method::ToText),
    }
}

// The method of the object, or undefined.
fn method_of<H: Host>(
    alloc: Global,
    object: &Value,
    method: Method,
    heap: &Heap,
    host: &H,
) -> Result<Value, NoMemory>
    requires { AreThere heap.now (object.now ∷ H.names.host host.now) }
    ensures value { IfOk result (λ v. v ≡
        spec.method_of (hosted H.rows) heap.now host.now object.now method) }
    ensures there { IfOk result (λ v. AreThere heap.now (v ∷ H.names.host host.now)) }
{
    let name = method_name(alloc, method)?;
    match property(alloc, host, heap, object, &name)? {
        Some(value) => Ok(value),
        None => Ok(Value::Undefined),
    }
}

// The conversion fails.
fn failure(alloc: Global, heap: &mut Heap) -> Result<Conversion, NoMemory>
    ensures value { IfOk result (λ k. conversion_as k ≡ spec.failure heap.old) }
    ensures after { OnOk result (heap.new ≡ spec.after_conversion heap.old (spec.failure heap.old)) }
    ensures there { (vs : List Held) → AreThere heap.old vs
        → IfOk result (λ k. AreThere heap.new (conversion_names k vs)) }
    ensures more { OnOk result (IsLater heap.old heap.new) }
{
    let error = new_error(alloc, heap, ErrorName::TypeError)?;
    Ok(Conversion::Fails(error))
}

// Calls the method, or else fails.
fn last_method<H: Host>(
    alloc: Global,
    object: &Value,
    method: Option<Method>,
    heap: &mut Heap,
    host: &H,
) -> Result<Conversion, NoMemory>
    requires { AreThere heap.old (object.now ∷ H.names.host host.now) }
    ensures value { IfOk result (λ k. conversion_as k ≡ spec.conversion (hosted H.rows) heap.old
        host.now object.now (left_methods method)) }
    ensures after { IfOk result (λ k. heap.new
        ≡ spec.after_conversion heap.old (conversion_as k)) }
    ensures there { IfOk result (λ k.
        AreThere heap.new (conversion_names k (H.names.host host.now))) }
    ensures more { OnOk result (IsLater heap.old heap.new) }
{
    let Some(method) = method else {
        return failure(alloc, heap);
    };
    let function = method_of(alloc, object, method, heap, host)?;
    if !is_callable(heap, &function) {
        return failure(alloc, heap);
    }
    Ok(Conversion::Tries {
        object: object.copy()?,
        method: function,
        left: None,
    })
}

// The first step of a conversion: calls the first method that is callable.
fn convert<H: Host>(
    alloc: Global,
    object: &Value,
    hint: Hint,
    heap: &mut Heap,
    host: &H,
) -> Result<Conversion, NoMemory>
    requires { AreThere heap.old (object.now ∷ H.names.host host.now) }
    ensures value { IfOk result (λ k. conversion_as k ≡
        spec.convert (hosted H.rows) heap.old host.now hint object.now) }
    ensures after { IfOk result (λ k. heap.new
        ≡ spec.after_conversion heap.old (conversion_as k)) }
    ensures there { IfOk result (λ k.
        AreThere heap.new (conversion_names k (H.names.host host.now))) }
    ensures more { OnOk result (IsLater heap.old heap.new) }
{
    let (first, second) = methods(hint, is_date(heap, object));
    let function = method_of(alloc, object, first, heap, host)?;
    if !is_callable(heap, &function) {
        return last_method(alloc, object, Some(second), heap, host);
    }
    Ok(Conversion::Tries {
        object: object.copy()?,
        method: function,
        left: Some(second),
    })
}

/// The first step of the conversion of an operand, which is to come again then, with those behind
/// it, before whatever was to come.
pub fn convert_again<H: Host>(
    alloc: Global,
    wanted: Wanted,
    operands: &mut Operands,
    heap: &mut Heap,
    host: &H,
) -> Result<Conversion, NoMemory>
    requires there { AreThere heap.old (operand_names operands.old (H.names.host host.now)) }
    requires place { wanted.place < length operands.old.done }
    ensures value { IfOk result (λ k. conversion_as k ≡ spec.convert (hosted H.rows) heap.old
        host.now wanted.by (operand_at operands.old.done wanted.place)) }
    ensures after { IfOk result (λ k. heap.new
        ≡ spec.after_conversion heap.old (conversion_as k)) }
    ensures waits { OnOk result (operands.new ≡ again wanted.place operands.old) }
    ensures there { IfOk result (λ k. AreThere heap.new
        (conversion_names k (operand_names operands.new (H.names.host host.now)))) }
    ensures more { OnOk result (IsLater heap.old heap.new) }
{
    let undefined = Value::Undefined;
    let object = operand(operands, wanted.place, &undefined);
    let conversion = convert(alloc, object, wanted.by, heap, host)?;
    operands.turn_back(wanted.place);
    Ok(conversion)
}

// The first step of the conversion of an operand, for which the frame waits then.
fn convert_operand<H: Host>(
    alloc: Global,
    wanted: Wanted,
    phase: Option<Phase>,
    operands: &mut Operands,
    heap: &mut Heap,
    host: &H,
) -> Result<ExprMove, NoMemory>
    requires there { AreThere heap.old (operand_names operands.old (H.names.host host.now)) }
    requires place { wanted.place < length operands.old.done }
    requires coming { values_coming operands.old.todo ≡ [] }
    ensures value { (a : Arena) (r : Row) → IfOk result (λ m. let vs = operands.old.done in
        spec.converts heap.old host.now (row_behind r phase) (take wanted.place vs)
        (drop (suc wanted.place) vs) (spec.convert (hosted H.rows) heap.old host.now wanted.by
        (operand_at vs wanted.place)) ≡ made_of a r operands.new m heap.new host.now) }
    ensures there { IfOk result (λ m.
        AreThere heap.new (move_names m (operand_names operands.new (H.names.host host.now)))) }
    ensures more { OnOk result (IsLater heap.old heap.new) }
    ensures shape { (n : Option PhaseKind) (e : Evaluation) → IsNext n phase
        → e.todo ≡ operands.old.todo → IfOk result (λ m. IsShaped n e operands.new m) }
{
    let conversion = convert_again(alloc, wanted, operands, heap, host)?;
    Ok(ExprMove::Converts(phase, conversion))
}

/// Converts the first operand that is to be converted; the frame's operands are as it waits for it
/// then. Without one nothing is done.
pub fn prepared<H: Host>(
    alloc: Global,
    wants: Wants,
    phase: Option<Phase>,
    operands: &mut Operands,
    heap: &mut Heap,
    host: &H,
) -> Result<Option<ExprMove>, NoMemory>
    requires there { AreThere heap.old (operand_names operands.old (H.names.host host.now)) }
    requires coming { values_coming operands.old.todo ≡ [] }
    ensures value { IfOk result (λ o. IsPrepared (hosted H.rows) (spec.hints natives.wants wants)
        phase heap.old host.now operands.old.done o operands.new heap.new) }
    ensures stays { IfOk result (λ o. MatchOption o ((operands.new ≡ operands.old)
        × (heap.new ≡ heap.old)) (λ m. AreThere heap.new
        (move_names m (operand_names operands.new (H.names.host host.now))))) }
    ensures more { OnOk result (IsLater heap.old heap.new) }
    ensures shape { (n : Option PhaseKind) (e : Evaluation) → IsNext n phase
        → e.todo ≡ operands.old.todo
        → IfOk result (λ o. IfSome o (λ m. IsShaped n e operands.new m)) }
{
    let Some(wanted) = first_wanted(operands, wants) else {
        return Ok(None);
    };
    let moved = convert_operand(alloc, wanted, phase, operands, heap, host)?;
    Ok(Some(moved))
}

/// The step of a conversion that hasn't begun (9.1).
pub fn convert_row<H: Host>(
    alloc: Global,
    hint: Hint,
    operands: &Operands,
    heap: &mut Heap,
    host: &H,
) -> Result<ExprMove, NoMemory>
    requires { AreThere heap.old (operand_names operands.now (H.names.host host.now)) }
    ensures value { (a : Arena) (r : Row) → IfOk result (λ m. spec.convert_row (hosted H.rows)
        heap.old host.now hint operands.now.done ≡ made_of a r operands.now m heap.new host.now) }
    ensures there { IfOk result (λ m.
        AreThere heap.new (move_names m (operand_names operands.now (H.names.host host.now)))) }
    ensures more { OnOk result (IsLater heap.old heap.new) }
    ensures shape { (n : Option PhaseKind) (e f : Evaluation) → IfOk result (λ m.
        IsShaped n e f m) }
{
    let undefined = Value::Undefined;
    let value = operand(operands, 0, &undefined);
    if value.is_primitive() {
        return Ok(ExprMove::Value(value.copy()?));
    }
    let conversion = convert(alloc, value, hint, heap, host)?;
    Ok(ExprMove::Converting(conversion))
}

/// A method has answered: the step takes a primitive value, and goes on to the method that is left
/// behind any other.
pub fn converting_row<H: Host>(
    alloc: Global,
    left: Option<Method>,
    operands: &Operands,
    heap: &mut Heap,
    host: &H,
) -> Result<ExprMove, NoMemory>
    requires { AreThere heap.old (operand_names operands.now (H.names.host host.now)) }
    ensures value { (a : Arena) (r : Row) → IfOk result (λ m. spec.converting_row (hosted H.rows)
        heap.old host.now (left_methods left) operands.now.done
        ≡ made_of a r operands.now m heap.new host.now) }
    ensures there { IfOk result (λ m.
        AreThere heap.new (move_names m (operand_names operands.now (H.names.host host.now)))) }
    ensures more { OnOk result (IsLater heap.old heap.new) }
    ensures shape { (n : Option PhaseKind) (e f : Evaluation) → IfOk result (λ m.
        IsShaped n e f m) }
{
    let undefined = Value::Undefined;
    let answer = operand(operands, 1, &undefined);
    if answer.is_primitive() {
        return Ok(ExprMove::Value(answer.copy()?));
    }
    let conversion = last_method(alloc, operand(operands, 0, &undefined), left, heap, host)?;
    Ok(ExprMove::Converting(conversion))
}
