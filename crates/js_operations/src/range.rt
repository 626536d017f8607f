// What is outside the profile.
ghost use Rattle.std.specs.Prelude.{◌≡◌, List, IfOk, OnOk, IfSome};
ghost use Rattle.js_value.specs.declared.value.Value.{Value as Held};
ghost use Rattle.js_value.specs.Image.{IsPrimitive};
ghost use Rattle.js_host.specs.There.{AreThere};
ghost use Rattle.js_reference.specs.Answers.{Gives, answered_names};
ghost use Rattle.js_reference.specs.Errors as errors;
ghost use Rattle.js_reference.specs.Later.{IsLater};

use js_heap::Heap;
use js_reference::{Answered, ErrorName, thrown};
use js_value::Value;
use mug_text::NoMemory;
use std::alloc::Global;

// The value, where there is one, and else a RangeError.
pub(crate) fn or_range_error<H>(
    alloc: Global,
    host: &H,
    heap: &mut Heap,
    value: Option<Value>,
) -> Result<Answered, NoMemory>
    requires primitive { IfSome value (λ v. IsPrimitive v) }
    ensures value { IfOk result (λ a. Gives
        (errors.or_throw ErrorName.RangeError heap.old host.now value) a heap.new host.now) }
    ensures there { (vs : List Held) → AreThere heap.old vs
        → IfOk result (λ a. AreThere heap.new (answered_names a vs)) }
    ensures more { OnOk result (IsLater heap.old heap.new) }
{
    match value {
        Some(value) => Ok(Answered::Returns(value)),
        None => thrown(alloc, host, heap, ErrorName::RangeError),
    }
}
