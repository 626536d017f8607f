// Calls and conversions, which no values of a text are operands of.
ghost use Rattle.std.specs.Prelude.{◌≡◌, ◌∷◌, [], List, OnOk};
ghost use Rattle.js_value.specs.declared.value.Value.{Value as Held};
ghost use Rattle.js_heap.specs.World.{World};
ghost use Rattle.js_host.specs.There.{AreThere};
ghost use Rattle.js_host.specs.declared.call.Callback.TheVariants as callback;
ghost use Rattle.js_rows.specs.Hosted.{entered, hint_of};
ghost use Rattle.js_frames.specs.Arenas.{Arenas};
ghost use Rattle.js_frames.specs.Soundness.{HasNode};
ghost use Rattle.js_moves.specs.inner.FormPlaces.{call_term};
ghost use Rattle.js_moves.specs.inner.Places.{Puts, Stands};

use crate::parts::{expression_frame, push_values, put_frame, valued};
use js_frames::{Site, Stack};
use js_operands::Phase;
use js_ops::Hint;
use js_value::Value;
use mug_text::NoMemory;
use std::alloc::Global;

/// A call stands above the frames, at its node, or at none of a text.
pub fn put_call<D: Drop>(
    alloc: Global,
    stack: &mut Stack<D>,
    site: Option<Site>,
    f: Value,
    this: Value,
    args: &[Value],
) -> Result<(), NoMemory>
    ensures { (dispatched : D → List Held) (ts : Arenas) (w : World) →
        Stands dispatched ts w stack.old.frames.items stack.old → HasNode ts site →
        AreThere w (f ∷ this ∷ args.now) →
        OnOk result (Puts dispatched ts w stack.old.base stack.old.frames.items
        (call_term ts site (f ∷ this ∷ args.now)) stack.new) }
{
    let mut operands = valued(alloc, &[f, this])?;
    push_values(&mut operands, args)?;
    put_frame(stack, expression_frame(site, Phase::CallOn, operands))
}

// The hint of a conversion that a native asks for.
fn hint(text: bool) -> Hint
    ensures { result ≡ hint_of text }
{
    if text { Hint::Text } else { Hint::Number }
}

/// The conversion of a value stands above the frames, at no place of a text.
pub(crate) fn enter_conversion<D: Drop>(
    alloc: Global,
    stack: &mut Stack<D>,
    text: bool,
    value: Value,
) -> Result<(), NoMemory>
    ensures { (dispatched : D → List Held) (ts : Arenas) (w : World) →
        Stands dispatched ts w stack.old.frames.items stack.old → AreThere w (value ∷ []) →
        OnOk result (Puts dispatched ts w stack.old.base stack.old.frames.items
        (entered (callback.Convert text value)) stack.new) }
{
    let operands = valued(alloc, &[value])?;
    put_frame(
        stack,
        expression_frame(None, Phase::Convert(hint(text)), operands),
    )
}
