// The operands of a frame as values, and how it goes on over others.
ghost use Rattle.std.specs.Prelude.{◌≡◌, ◌∷◌, ◌++◌, [], List, IfOk, OnOk, drop, slice_get, take, unwrap_or};
ghost use Rattle.std.specs.Option.{option_copied};
ghost use Rattle.js_value.specs.declared.value.Value.{Value as Held};
ghost use Rattle.js_heap.specs.Closed.{IsThere};
ghost use Rattle.js_heap.specs.World.{World};
ghost use Rattle.js_host.specs.Names.{option_names};
ghost use Rattle.js_host.specs.There.{AreThere};
ghost use Rattle.js_ops.specs.Convert as convert;
ghost use Rattle.js_term.specs.ArenaOperands.{as_operands};
ghost use Rattle.js_operands.specs.ExprMoves.{operand_names};

use js_term::{Operand, Operands};
use js_tree::NodeId;
use js_value::Value;
use mug_text::NoMemory;
use std::alloc::Global;

/// The operand at a place, or another value, where there is none.
pub fn operand<'a>(operands: &'a Operands, place: usize, other: &'a Value) -> &'a Value
    ensures value { result.now ≡ unwrap_or (slice_get operands.now.done place) other.now }
    ensures there { (w : World) (vs : List Held) → AreThere w (operand_names operands.now vs)
        → IsThere w other.now → IsThere w result.now }
{
    operands.value(place).unwrap_or(other)
}

/// Whether the value is undefined or null.
pub fn is_missing(value: &Value) -> bool
    ensures { result ≡ convert.is_missing value.now }
{
    matches!(value, Value::Undefined | Value::Null)
}

/// Puts a value behind the others, where none is to come.
pub fn add_value(operands: &mut Operands, value: Value) -> Result<(), NoMemory>
    requires { operands.old.todo ≡ [] }
    ensures { OnOk result (operands.new
        ≡ record { done = operands.old.done ++ value ∷ []; todo = [] }) }
{
    operands.push(Operand::Value(Value::Undefined))?;
    operands.take(value);
    Ok(())
}

// Puts a copy of a value, where it is there, behind the others, where none is to come.
fn add_option(operands: &mut Operands, value: Option<&Value>) -> Result<(), NoMemory>
    requires { operands.old.todo ≡ [] }
    ensures { OnOk result (operands.new ≡ record {
      done = operands.old.done ++ option_names (option_copied value.entry) [];
      todo = [];
    }) }
{
    match value {
        Some(value) => add_value(operands, value.copy()?),
        None => Ok(()),
    }
}

/// Puts nodes behind those to come.
pub(crate) fn add_nodes(operands: &mut Operands, nodes: &[NodeId]) -> Result<(), NoMemory>
    ensures { OnOk result (operands.new
        ≡ record { done = operands.old.done; todo = operands.old.todo ++ as_operands nodes.now }) }
{
    for node in nodes {
        operands.push(Operand::Node(*node))?;
    }
    Ok(())
}

/// Copies of the first values.
pub fn first_values(alloc: Global, operands: &Operands, count: usize) -> Result<Operands, NoMemory>
    ensures { IfOk result (λ e. e ≡ record { done = take count operands.now.done; todo = [] }) }
{
    let mut first = Operands::new(alloc);
    for place in 0..count {
        add_option(&mut first, operands.value(place))?;
    }
    Ok(first)
}

/// Puts copies of the values from a place on behind the others, where none is to come.
pub fn add_values(operands: &mut Operands, others: &Operands, from: usize) -> Result<(), NoMemory>
    requires { operands.old.todo ≡ [] }
    ensures { OnOk result (operands.new
        ≡ record { done = operands.old.done ++ drop from others.now.done; todo = [] }) }
{
    for place in from..others.value_count() {
        add_option(operands, others.value(place))?;
    }
    Ok(())
}
