// Conversions of operands.
ghost use Rattle.std.specs.Prelude.{◌≡◌, ◌∷◌, [], List, OnOk};
ghost use Rattle.js_value.specs.declared.value.Value.{Value as Held};
ghost use Rattle.js_heap.specs.World.{World};
ghost use Rattle.js_host.specs.There.{AreThere};
ghost use Rattle.js_operands.specs.ExprMoves.{conversion_as, conversion_names, left_methods};
ghost use Rattle.js_operands.specs.Made.{Conversion as Begins};
ghost use Rattle.js_frames.specs.Arenas.{Arenas};
ghost use Rattle.js_frames.specs.Soundness.{HasNode};
ghost use Rattle.js_moves.specs.inner.Places.{Puts, Stands};
ghost use Rattle.js_moves.specs.inner.Terms.{conversion_term, expression_place};

use crate::parts::{awaiting, expression_frame, put_completion, put_frame, put_waiting, valued};
use js_frames::{Site, Stack};
use js_operands::{Conversion, Method, Phase};
use js_term::Completion;
use js_value::Value;
use mug_text::NoMemory;
use std::alloc::Global;

// The call of an object's method stands above the frames, in a node that takes its answer.
fn put_method<D: Drop>(
    alloc: Global,
    stack: &mut Stack<D>,
    site: Option<Site>,
    object: Value,
    method: Value,
    left: Option<Method>,
) -> Result<(), NoMemory>
    ensures { (dispatched : D → List Held) (ts : Arenas) (w : World) →
        Stands dispatched ts w stack.old.frames.items stack.old → HasNode ts site →
        AreThere w (object ∷ method ∷ []) →
        OnOk result (Puts dispatched ts w stack.old.base stack.old.frames.items
        (conversion_term (expression_place ts site)
        (Begins.Tries object method (left_methods left))) stack.new) }
{
    let call = valued(alloc, &[method, object.copy()?])?;
    let operands = awaiting(alloc, &[object])?;
    put_waiting(
        stack,
        expression_frame(site, Phase::Converting(left), operands),
    )?;
    put_frame(stack, expression_frame(site, Phase::CallOn, call))
}

/// A conversion at a site stands above the frames.
pub fn put_conversion<D: Drop>(
    alloc: Global,
    stack: &mut Stack<D>,
    site: Option<Site>,
    conversion: Conversion,
) -> Result<(), NoMemory>
    ensures { (dispatched : D → List Held) (ts : Arenas) (w : World) →
        Stands dispatched ts w stack.old.frames.items stack.old → HasNode ts site →
        AreThere w (conversion_names conversion []) →
        OnOk result (Puts dispatched ts w stack.old.base stack.old.frames.items
        (conversion_term (expression_place ts site) (conversion_as conversion)) stack.new) }
{
    match conversion {
        Conversion::Fails(value) => {
            put_completion(stack, Completion::Throw(value));
            Ok(())
        }
        Conversion::Tries {
            object,
            method,
            left,
        } => put_method(alloc, stack, site, object, method, left),
    }
}
