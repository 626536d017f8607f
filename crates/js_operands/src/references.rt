// What operands refer to is read, written and deleted.
ghost use Rattle.std.specs.Prelude.{◌≡◌, ◌∷◌, IfOk, OnOk, length};
ghost use Rattle.std.specs.Option.{option_map};
ghost use Rattle.js_heap.specs.Chains.{IsBelow};
ghost use Rattle.js_heap.specs.Scopes.{scope_number};
ghost use Rattle.js_host.specs.There.{AreThere};
ghost use Rattle.js_reference.specs.Answers.{Gives, answered_names};
ghost use Rattle.js_reference.specs.Deletes as deletes;
ghost use Rattle.js_reference.specs.Hosted.{hosted};
ghost use Rattle.js_reference.specs.Later.{IsLater};
ghost use Rattle.js_reference.specs.Names as names;
ghost use Rattle.js_reference.specs.Properties as properties;
ghost use Rattle.js_reference.specs.Puts as puts;
ghost use Rattle.js_operands.specs.ExprMoves.{operand_names};
ghost use Rattle.js_operands.specs.Steps.{operand_at};

use crate::values::operand;
use js_heap::{Heap, ScopeId};
use js_host::Host;
use js_reference::{Answered, delete, read, read_name, write, write_name};
use js_term::Operands;
use js_value::Value;
use mug_text::{JText, NoMemory};
use std::alloc::Global;

/// Reads a property of the first operand.
pub fn read_base<H: Host>(
    alloc: Global,
    operands: &Operands,
    key: &JText,
    heap: &mut Heap,
    host: &H,
) -> Result<Answered, NoMemory>
    requires { AreThere heap.old (operand_names operands.now (H.names.host host.now)) }
    ensures value { IfOk result (λ a. Gives (properties.read (hosted H.rows) heap.old host.now
        (operand_at operands.now.done 0) key.now) a heap.new host.now) }
    ensures there { IfOk result (λ a. AreThere heap.new
        (answered_names a (operand_names operands.now (H.names.host host.now)))) }
    ensures more { OnOk result (IsLater heap.old heap.new) }
{
    let undefined = Value::Undefined;
    read(alloc, host, heap, operand(operands, 0, &undefined), key)
}

/// Deletes a property of the first operand.
pub fn delete_base<H: Host>(
    alloc: Global,
    operands: &Operands,
    key: &JText,
    heap: &mut Heap,
    host: &H,
) -> Result<Answered, NoMemory>
    requires { AreThere heap.old (operand_names operands.now (H.names.host host.now)) }
    ensures value { IfOk result (λ a. Gives (deletes.delete (hosted H.rows) heap.old host.now
        (operand_at operands.now.done 0) key.now) a heap.new host.now) }
    ensures there { IfOk result (λ a. AreThere heap.new
        (answered_names a (operand_names operands.now (H.names.host host.now)))) }
    ensures more { OnOk result (IsLater heap.old heap.new) }
{
    let undefined = Value::Undefined;
    delete(alloc, host, heap, operand(operands, 0, &undefined), key)
}

/// Writes to a property of the first operand.
pub fn write_base<H: Host>(
    alloc: Global,
    operands: &Operands,
    key: &JText,
    value: Value,
    heap: &mut Heap,
    host: &mut H,
) -> Result<Answered, NoMemory>
    requires { AreThere heap.old (value ∷ operand_names operands.now (H.names.host host.old)) }
    ensures value { IfOk result (λ a. Gives (puts.write (hosted H.rows) heap.old host.old
        (operand_at operands.now.done 0) key.now value) a heap.new host.new) }
    ensures there { IfOk result (λ a. AreThere heap.new
        (answered_names a (operand_names operands.now (H.names.host host.new)))) }
    ensures more { OnOk result (IsLater heap.old heap.new) }
{
    let undefined = Value::Undefined;
    write(
        alloc,
        host,
        heap,
        operand(operands, 0, &undefined),
        key,
        value,
    )
}

/// Reads a name, in a frame with these operands.
pub fn read_variable<H: Host>(
    alloc: Global,
    operands: &Operands,
    scope: Option<ScopeId>,
    name: &JText,
    heap: &mut Heap,
    host: &H,
) -> Result<Answered, NoMemory>
    requires there { AreThere heap.old (operand_names operands.now (H.names.host host.now)) }
    requires scope { IsBelow (length heap.old.scopes) (option_map scope_number scope) }
    ensures value { IfOk result (λ a. Gives
        (names.read_name (hosted H.rows) heap.old host.now scope name.now) a heap.new host.now) }
    ensures there { IfOk result (λ a. AreThere heap.new
        (answered_names a (operand_names operands.now (H.names.host host.now)))) }
    ensures more { OnOk result (IsLater heap.old heap.new) }
{
    let _operands = operands;
    read_name(alloc, host, heap, scope, name)
}

/// Writes to a name, in a frame with these operands.
pub fn write_variable<H: Host>(
    alloc: Global,
    operands: &Operands,
    scope: Option<ScopeId>,
    name: &JText,
    value: Value,
    heap: &mut Heap,
    host: &mut H,
) -> Result<Answered, NoMemory>
    requires there { AreThere heap.old
        (value ∷ operand_names operands.now (H.names.host host.old)) }
    requires scope { IsBelow (length heap.old.scopes) (option_map scope_number scope) }
    ensures value { IfOk result (λ a. Gives
        (names.write_name (hosted H.rows) heap.old host.old scope name.now value)
        a heap.new host.new) }
    ensures there { IfOk result (λ a. AreThere heap.new
        (answered_names a (operand_names operands.now (H.names.host host.new)))) }
    ensures more { OnOk result (IsLater heap.old heap.new) }
{
    let _operands = operands;
    write_name(alloc, host, heap, scope, name, value)
}
