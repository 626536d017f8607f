// Operators between two operands.
ghost use Rattle.std.specs.Prelude.{◌≡◌, ◌∷◌, List, IfOk, OnOk};
ghost use Rattle.js_value.specs.declared.value.Value.{Value as Held};
ghost use Rattle.js_host.specs.There.{AreThere};
ghost use Rattle.js_reference.specs.Answers.{Gives, answered_names};
ghost use Rattle.js_reference.specs.Hosted.{hosted};
ghost use Rattle.js_reference.specs.Later.{IsLater};
ghost use Rattle.js_operations.specs.Converted.{IsConverted};
ghost use Rattle.js_operations.specs.Operations as operations;

use crate::Operation;
use crate::comparison::{compare, equality};
use crate::instances::instance_of;
use crate::membership::in_object;
use crate::numbers::{arithmetic, bitwise, sum};
use crate::range::or_range_error;
use js_heap::Heap;
use js_host::Host;
use js_reference::Answered;
use js_value::{Value, same};
use mug_text::NoMemory;
use std::alloc::Global;

/// What an operation gives of operands that are converted (ECMA-262 edition 5.1, 11.5 to 11.10);
/// outside the profile it throws a RangeError.
pub fn operate<H: Host>(
    alloc: Global,
    host: &H,
    heap: &mut Heap,
    operation: Operation,
    left: &Value,
    right: &Value,
) -> Result<Answered, NoMemory>
    requires there { AreThere heap.old (left.now ∷ right.now ∷ H.names.host host.now) }
    requires left { IsConverted
        (operations.operation_wants operation left.now right.now 0) left.now }
    requires right { IsConverted
        (operations.operation_wants operation left.now right.now 1) right.now }
    ensures value { IfOk result (λ a. Gives
        (operations.operate (hosted H.rows) heap.old host.now operation left.now right.now)
        a heap.new host.now) }
    ensures there { (vs : List Held) → AreThere heap.old vs
        → IfOk result (λ a. AreThere heap.new (answered_names a vs)) }
    ensures more { OnOk result (IsLater heap.old heap.new) }
{
    let value = match operation {
        Operation::Sum => sum(alloc, left, right)?,
        Operation::Arithmetic(operator) => arithmetic(operator, left, right),
        Operation::Bitwise(operator) => bitwise(operator, left, right),
        Operation::Relates(relation) => compare(relation, left, right),
        Operation::Equals(holds) => equality(holds, left, right),
        Operation::Is(holds) => Some(Value::Bool(same(left, right) == holds)),
        Operation::InstanceOf => return instance_of(alloc, host, heap, left, right),
        Operation::HasProperty => return in_object(alloc, host, heap, left, right),
    };
    or_range_error(alloc, host, heap, value)
}
